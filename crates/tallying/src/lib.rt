// The tally of a load trial as text, put into a buffer that the caller lends.
#![tactic(auto, using(transcript::proofs::Writes::pieces))]

ghost use Rattle.std.specs.Prelude.{◌≡◌, ◌+◌, ◌≤◌, length};
ghost use Rattle.transcript.specs.Room.{end_in, put_in};
ghost use Rattle.transcript.specs.Writer.{written};
ghost use Rattle.tallying.specs.Tallying.{room, count_line, tally_text};

use charts::Tally;
use transcript::writer::Line;

// Six lines of at most 40 bytes.
const ROOM: usize = 240;

// A word and its number, as a line.
fn put_count(line: &mut Line, word: &[u8], x: u16)
    ensures { line.new ≡ written line.old (count_line word.now x) }
{
    line.word(word);
    line.byte(b' ');
    line.figure(x as u64);
    line.byte(b'\n');
}

#[tactic(auto, using(transcript::proofs::Writes::pieces), unfolding(crate::specs::Tallying::tally_text))]
fn put_lines(line: &mut Line, t: Tally)
    ensures short { length (tally_text t) ≤ room }
    ensures writes { line.new ≡ written line.old (tally_text t) }
{
    put_count(line, b"requests", t.requests);
    put_count(line, b"wins", t.wins);
    put_count(line, b"sent", t.sent);
    put_count(line, b"ack", t.acks);
    put_count(line, b"miss", t.misses);
    put_count(line, b"drops", t.drops);
}

// The tally, one word and its number a line. The answer is the place after it; where fewer than 240 bytes are left nothing is put, and it is the place that was given.
pub fn put_tally(out: &mut [u8], at: usize, t: Tally) -> usize
    ensures upper_bound { result ≤ at + room }
    ensures value { result ≡ end_in room out.old at (tally_text t) }
    ensures out_after { out.new ≡ put_in room out.old at (tally_text t) }
{
    if !transcript::has_room(out.len(), at, ROOM) {
        return at;
    }
    let mut line = Line::new(out, at);
    put_lines(&mut line, t);
    line.end()
}
