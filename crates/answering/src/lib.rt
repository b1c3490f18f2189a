// The answer to a question as text, put into a buffer that the caller lends.
#![tactic(auto, using(transcript::proofs::Writes::pieces))]

ghost use Rattle.std.specs.Prelude.{◌≡◌, ◌+◌, ◌≤◌, length};
ghost use Rattle.transcript.specs.Room.{end_in, put_in};
ghost use Rattle.transcript.specs.Writer.{written};
ghost use Rattle.answering.specs.Answering.{room, held, route_text, refused_text, answer_text};

use charts::Route;
use transcript::writer::Line;

// Six lines of at most 64 bytes.
const ROOM: usize = 384;

// An answer holds six records at most.
fn held(count: u8) -> u8
    ensures value { result ≡ held count }
    ensures upper_bound { result ≤ 6 }
{
    count.min(6)
}

// The lines of a route.
fn put_route(line: &mut Line, route: Route)
    ensures short { length (route_text route.count route.actions) ≤ room }
    ensures writes { line.new ≡ written line.old (route_text route.count route.actions) }
{
    for &a in &route.actions[..held(route.count) as usize] {
        line.action(a);
    }
}

// The number of a refusal.
fn put_refused(line: &mut Line, number: u8)
    ensures short { length (refused_text number) ≤ room }
    ensures writes { line.new ≡ written line.old (refused_text number) }
{
    line.word(b"refused ");
    line.figure(number as u64);
    line.byte(b'\n');
}

#[tactic(auto, using(transcript::proofs::Writes::pieces), unfolding(crate::specs::Answering::answer_text))]
fn put_lines(line: &mut Line, x: Result<Option<Route>, u8>)
    ensures short { length (answer_text x) ≤ room }
    ensures writes { line.new ≡ written line.old (answer_text x) }
{
    match x {
        Err(number) => put_refused(line, number),
        Ok(None) => line.word(b"none\n"),
        Ok(Some(route)) => put_route(line, route),
    }
}

// The answer: the route, an action a line, or `none`, or `refused` and the number. Where fewer than 384 bytes are left nothing is put, and the place that was given
// is returned.
pub fn put_answer(out: &mut [u8], at: usize, x: Result<Option<Route>, u8>) -> usize
    ensures upper_bound { result ≤ at + room }
    ensures value { result ≡ end_in room out.old at (answer_text x) }
    ensures out_after { out.new ≡ put_in room out.old at (answer_text x) }
{
    if !transcript::has_room(out.len(), at, ROOM) {
        return at;
    }
    let mut line = Line::new(out, at);
    put_lines(&mut line, x);
    line.end()
}
