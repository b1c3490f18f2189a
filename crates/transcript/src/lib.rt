// The lines of a run as text ("A run printed") and of its actions, put into a buffer that the caller lends, from a place on.
// Each function answers the place after its line. Where fewer than 64 bytes are left it puts nothing and answers the place it was given.
// Words and figures can be put one by one too, each where it has room.
#![tactic(auto, using(crate::proofs::Writes::pieces))]

mod text;
mod words;
pub mod writer;

ghost use Rattle.std.specs.Prelude.{◌≡◌, [], ◌∷◌, ◌++◌, ◌+◌, ◌≤◌, leb, length};
ghost use Rattle.transcript.specs.Lines.{line_of, nodes_line, done_line, refused_line, span_line, cell_text};
ghost use Rattle.transcript.specs.Printed.{action_line};
ghost use Rattle.transcript.specs.Room.{longest, end_in, put_in, end_of, put_line};
ghost use Rattle.transcript.specs.Text.{decimal};

use charts::{Action, Entry, Report};
use writer::Line;

const LONGEST: usize = 64;

// Whether a buffer of that size has so much room from a place on.
pub fn has_room(size: usize, at: usize, room: usize) -> bool
    ensures { result ≡ leb (at + room) size }
{
    room <= size && at <= size - room
}

// The line of an accepted action.
pub fn put_line(out: &mut [u8], at: usize, index: u64, kind: u8, report: Report) -> usize
    ensures upper_bound { result ≤ at + longest }
    ensures value { result ≡ end_of out.old at (line_of index kind report) }
    ensures out_after { out.new ≡ put_line out.old at (line_of index kind report) }
{
    if !has_room(out.len(), at, LONGEST) {
        return at;
    }
    let a = text::put_u64(out, at, index);
    let b = text::put_byte(out, a, b' ');
    let c = text::put_u8(out, b, kind);
    let d = text::put_byte(out, c, b' ');
    text::put_report(out, d, report)
}

// `nodes` and n.
pub fn put_nodes(out: &mut [u8], at: usize, n: u8) -> usize
    ensures upper_bound { result ≤ at + longest }
    ensures value { result ≡ end_of out.old at (nodes_line n) }
    ensures out_after { out.new ≡ put_line out.old at (nodes_line n) }
{
    if !has_room(out.len(), at, LONGEST) {
        return at;
    }
    let mut line = Line::new(out, at);
    line.word(b"nodes ");
    line.figure(n as u64);
    line.byte(b'\n');
    line.end()
}

// `done` and the count of all actions.
pub fn put_done(out: &mut [u8], at: usize, count: u64) -> usize
    ensures upper_bound { result ≤ at + longest }
    ensures value { result ≡ end_of out.old at (done_line count) }
    ensures out_after { out.new ≡ put_line out.old at (done_line count) }
{
    if !has_room(out.len(), at, LONGEST) {
        return at;
    }
    let mut line = Line::new(out, at);
    line.word(b"done ");
    line.figure(count);
    line.byte(b'\n');
    line.end()
}

// `refused`, the count accepted so far and the number.
pub fn put_refused(out: &mut [u8], at: usize, accepted: u64, number: u8) -> usize
    ensures upper_bound { result ≤ at + longest }
    ensures value { result ≡ end_of out.old at (refused_line accepted number) }
    ensures out_after { out.new ≡ put_line out.old at (refused_line accepted number) }
{
    if !has_room(out.len(), at, LONGEST) {
        return at;
    }
    let mut line = Line::new(out, at);
    line.word(b"refused ");
    line.figure(accepted);
    line.byte(b' ');
    line.figure(number as u64);
    line.byte(b'\n');
    line.end()
}

// An action in plain words, as `list` prints it.
pub fn put_action(out: &mut [u8], at: usize, a: Action) -> usize
    ensures upper_bound { result ≤ at + longest }
    ensures value { result ≡ end_of out.old at (action_line a) }
    ensures out_after { out.new ≡ put_line out.old at (action_line a) }
{
    if !has_room(out.len(), at, LONGEST) {
        return at;
    }
    let mut line = Line::new(out, at);
    line.action(a);
    line.end()
}

// A cell of the reception chart's table, and a byte after it.
pub fn put_cell(out: &mut [u8], at: usize, e: Entry, after: u8) -> usize
    ensures upper_bound { result ≤ at + 12 }
    ensures value { result ≡ end_of out.old at (cell_text e ++ (after ∷ [])) }
    ensures out_after { out.new ≡ put_line out.old at (cell_text e ++ (after ∷ [])) }
{
    if !has_room(out.len(), at, LONGEST) {
        return at;
    }
    let mut line = Line::new(out, at);
    line.figure(e.place as u64);
    line.byte(b' ');
    line.word(text::first_word(e.word));
    line.byte(b' ');
    line.byte(text::flag(e.pends));
    line.byte(after);
    line.end()
}

// A line's number and how many actions it says.
pub fn put_span(out: &mut [u8], at: usize, line: u64, times: u32) -> usize
    ensures upper_bound { result ≤ at + longest }
    ensures value { result ≡ end_of out.old at (span_line line times) }
    ensures out_after { out.new ≡ put_line out.old at (span_line line times) }
{
    if !has_room(out.len(), at, LONGEST) {
        return at;
    }
    let mut text = Line::new(out, at);
    text.figure(line);
    text.byte(b' ');
    text.figure(times as u64);
    text.byte(b'\n');
    text.end()
}

pub fn put_word(out: &mut [u8], at: usize, word: &[u8]) -> usize
    ensures value { result ≡ end_in (length word.now) out.old at word.now }
    ensures out_after { out.new ≡ put_in (length word.now) out.old at word.now }
{
    if !has_room(out.len(), at, word.len()) {
        return at;
    }
    text::put_word(out, at, word)
}

// A figure of at most 3 digits.
pub fn put_u8(out: &mut [u8], at: usize, x: u8) -> usize
    ensures upper_bound { result ≤ at + 3 }
    ensures value { result ≡ end_in 3 out.old at (decimal x) }
    ensures out_after { out.new ≡ put_in 3 out.old at (decimal x) }
{
    if !has_room(out.len(), at, 3) {
        return at;
    }
    text::put_u8(out, at, x)
}

// A figure of at most 20 digits.
pub fn put_u64(out: &mut [u8], at: usize, x: u64) -> usize
    ensures upper_bound { result ≤ at + 20 }
    ensures value { result ≡ end_in 20 out.old at (decimal x) }
    ensures out_after { out.new ≡ put_in 20 out.old at (decimal x) }
{
    if !has_room(out.len(), at, 20) {
        return at;
    }
    text::put_u64(out, at, x)
}
