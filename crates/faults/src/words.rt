// A fault's line, written piece by piece.
ghost use Rattle.std.specs.Prelude.{◌≡◌, ◌-◌, ◌<◌, ◌≤◌, length};
ghost use Rattle.transcript.specs.Writer.{written};
ghost use Rattle.faults.specs.Faults.{fault_words, hex_digit, escaped, shown_byte, shown_bytes, shown, has_control, has_no_break, has_star, hint, quoted};
ghost use Rattle.faults.specs.Faults.{field_of, field_words, most_words, word_of, said_of, said_with, cause_words, fault_line, longest};

use crate::{Cause, Fault};
use transcript::writer::Line;

// A field of a line in plain words.
#[derive(Clone, Copy, PartialEq, Eq)]
enum Field {
    Count,
    Header,
    Data,
    RequestNode,
    RequestAddress,
    RequestLabel,
    ArbitrateNode,
    RespondNode,
    Acknowledgement,
    ClockNode,
    ChangeAddress,
    AskNode,
    DecideNode,
    Nodes,
    Actions,
    UserNode,
    UserAddress,
    Spell,
    Fillers,
    Period,
    FindReport,
    FindNode,
    FindDepth,
}

#[tactic(auto, using(transcript::proofs::Writes::pieces), unfolding(crate::specs::Faults::fault_words))]
fn put_fault_words(line: &mut Line, fault: Fault)
    ensures short { length (fault_words fault) ≤ 20 }
    ensures writes { line.new ≡ written line.old (fault_words fault) }
{
    match fault {
        Fault::UnknownWord => line.word(b"unknown word"),
        Fault::NotNumber => line.word(b"not a number"),
        Fault::TooLarge => line.word(b"number too large"),
        Fault::MissingField => line.word(b"missing field"),
        Fault::ExtraField => line.word(b"extra field"),
        Fault::NoRepeat => line.word(b"repeat of 0"),
        Fault::LongLine => line.word(b"line over 255 bytes"),
        Fault::NodesMissing => line.word(b"no nodes line"),
        Fault::NodesAgain => line.word(b"a second nodes line"),
        Fault::NoUser => line.word(b"no user 0 line"),
        Fault::NoAction => line.word(b"no action"),
        Fault::TooMany => line.word(b"too many actions"),
        Fault::NoQuestion => line.word(b"no find line"),
        Fault::AfterQuestion => line.word(b"a line after find"),
        Fault::Refused(number) => {
            line.word(b"refused ");
            line.figure(number as u64);
        }
    }
}

fn hex_digit(d: u8) -> u8
    requires { d < 16 }
    ensures { result ≡ hex_digit d }
{
    if d < 10 { b'0' + d } else { b'A' - 10 + d }
}

fn put_escaped(line: &mut Line, b: u8)
    ensures { line.new ≡ written line.old (escaped b) }
{
    line.word(b"\\x");
    line.byte(hex_digit(b / 16));
    line.byte(hex_digit(b % 16));
}

#[tactic(auto, using(transcript::proofs::Writes::pieces), unfolding(crate::specs::Faults::shown_byte))]
fn put_shown_byte(line: &mut Line, b: u8)
    ensures { line.new ≡ written line.old (shown_byte b) }
{
    match b {
        b'\t' | b'\r' => line.byte(b' '),
        32..=126 => line.byte(b),
        _ => put_escaped(line, b),
    }
}

fn put_shown_bytes(line: &mut Line, w: &[u8])
    ensures { line.new ≡ written line.old (shown_bytes w.now) }
{
    for &b in w {
        put_shown_byte(line, b);
    }
}

// A word or a line, cut after 64 bytes.
#[tactic(auto, using(transcript::proofs::Writes::pieces), unfolding(crate::specs::Faults::shown))]
fn put_shown(line: &mut Line, w: &[u8])
    ensures { line.new ≡ written line.old (shown w.now) }
{
    if 64 < w.len() {
        put_shown_bytes(line, &w[..64]);
        line.word(b"..");
    } else {
        put_shown_bytes(line, w);
    }
}

// Bytes of no text.
fn has_control(w: &[u8]) -> bool
    ensures { result ≡ has_control w.now }
{
    w.iter().any(|&b| b < 32 || b == 127)
}

// A no-break space, two bytes in UTF-8.
fn has_no_break(w: &[u8]) -> bool
    ensures { result ≡ has_no_break w.now }
{
    for k in 1..w.len() {
        if w[k - 1] == 194 && w[k] == 160 {
            return true;
        }
    }
    false
}

fn has_star(w: &[u8]) -> bool
    ensures { result ≡ has_star w.now }
{
    w.contains(&b'*')
}

#[tactic(auto, using(transcript::proofs::Writes::pieces), unfolding(crate::specs::Faults::hint))]
fn put_hint(line: &mut Line, w: &[u8])
    ensures { line.new ≡ written line.old (hint w.now) }
{
    if has_control(w) {
        line.word(b" (no plain text: UTF-16, or a binary file)");
    } else if has_no_break(w) {
        line.word(b" (a no-break space: write a plain one)");
    } else if has_star(w) && 1 < w.len() {
        line.word(b" (write spaces around *)");
    }
}

// A word in quotes, with its hint.
fn put_quoted(line: &mut Line, w: &[u8])
    ensures { line.new ≡ written line.old (quoted w.now) }
{
    line.byte(b'"');
    put_shown(line, w);
    line.byte(b'"');
    put_hint(line, w);
}

#[tactic(auto, using(transcript::proofs::Writes::pieces), unfolding(crate::specs::Faults::field_of))]
fn field_of(kind: u8, place: u8) -> Field
    ensures { result ≡ field_of kind place }
{
    match (kind, place) {
        (1, 1) => Field::RequestNode,
        (1, 2) => Field::RequestAddress,
        (1, 3) => Field::Header,
        (1, 4) => Field::Data,
        (1, 6) => Field::RequestLabel,
        (2, 1) => Field::ArbitrateNode,
        (3, 1) => Field::RespondNode,
        (3, 2) => Field::Acknowledgement,
        (4, 1) => Field::ClockNode,
        (6, 1) => Field::Period,
        (7, 1) => Field::ChangeAddress,
        (11, 1) => Field::AskNode,
        (12, 1) => Field::DecideNode,
        (13, 1) => Field::Nodes,
        (18, 1) => Field::Actions,
        (19, 1) => Field::UserNode,
        (20, 1) => Field::UserAddress,
        (21, 1) => Field::Spell,
        (22, 1) => Field::Fillers,
        (23, 1) => Field::FindReport,
        (23, 2) => Field::FindNode,
        (23, _) => Field::FindDepth,
        _ => Field::Count,
    }
}

#[tactic(auto, using(transcript::proofs::Writes::pieces), unfolding(crate::specs::Faults::field_words, crate::specs::Faults::setting_words, crate::specs::Faults::question_words))]
fn field_words(field: Field) -> &'static [u8]
    ensures { result.now ≡ field_words field }
{
    match field {
        Field::Count => b"the count after *",
        Field::Header => b"the header of request",
        Field::Data => b"the data of request",
        Field::RequestNode => b"the node of request",
        Field::RequestAddress => b"the address of request",
        Field::RequestLabel => b"the label of request",
        Field::ArbitrateNode => b"the node of arbitrate",
        Field::RespondNode => b"the node of respond",
        Field::Acknowledgement => b"the acknowledgement of respond",
        Field::ClockNode => b"the node of clock",
        Field::ChangeAddress => b"the address of change",
        Field::AskNode => b"the node of ask",
        Field::DecideNode => b"the node of decide",
        Field::Nodes => b"the number of nodes",
        Field::Actions => b"the number of actions",
        Field::UserNode => b"the node of user",
        Field::UserAddress => b"the address of user",
        Field::Spell => b"the spell of user",
        Field::Fillers => b"the fillers of user",
        Field::Period => b"the period of user",
        Field::FindReport => b"the report of find",
        Field::FindNode => b"the node of find",
        Field::FindDepth => b"the depth of find",
    }
}

fn most_words(field: Field) -> &'static [u8]
    ensures { result.now ≡ most_words field }
{
    match field {
        Field::Count | Field::Header | Field::Data => b", at most 4294967295",
        Field::Actions => b", at most 65535",
        _ => b", at most 255",
    }
}

// A word in quotes and its field.
fn put_word_of(line: &mut Line, w: &[u8], field: Field)
    ensures { line.new ≡ written line.old (word_of w.now field) }
{
    line.word(b": ");
    put_quoted(line, w);
    line.word(b", ");
    line.word(field_words(field));
}

// A line and what is said of it.
fn put_said(line: &mut Line, w: &[u8], what: &[u8])
    ensures { line.new ≡ written line.old (said_of w.now what.now) }
{
    line.word(b": ");
    put_shown(line, w);
    line.word(what);
}

// A line, and what is said of a number in it.
fn put_said_with(line: &mut Line, w: &[u8], what: &[u8], x: u8)
    ensures { line.new ≡ written line.old (said_with w.now what.now x) }
{
    put_said(line, w, what);
    line.figure(x as u64);
}

// The last of n.
fn last_of(n: u8) -> u8
    ensures { result ≡ n - 1 }
{
    n.saturating_sub(1)
}

#[tactic(auto, using(transcript::proofs::Writes::pieces), unfolding(crate::specs::Faults::cause_words))]
fn put_cause(line: &mut Line, cause: Cause, w: &[u8])
    ensures short { length (cause_words cause w.now) ≤ 400 }
    ensures writes { line.new ≡ written line.old (cause_words cause w.now) }
{
    match cause {
        Cause::Plain => {}
        Cause::Quoted => {
            line.word(b": ");
            put_quoted(line, w);
        }
        Cause::Field(kind, place) => put_word_of(line, w, field_of(kind, place)),
        Cause::Large(kind, place) => {
            let field = field_of(kind, place);
            put_word_of(line, w, field);
            line.word(most_words(field));
        }
        Cause::Missing(kind, place) => {
            line.word(b": ");
            line.word(field_words(field_of(kind, place)));
        }
        Cause::Size => put_said(line, w, b": a bus has 2 to 63 nodes"),
        Cause::Node(node, n) => {
            put_said_with(line, w, b": no node ", node);
            line.word(b", nodes are 0 to ");
            line.figure(last_of(n) as u64);
        }
        Cause::Address(address, n) => {
            put_said_with(line, w, b": no address ", address);
            line.word(b", addresses are 0 to ");
            line.figure(last_of(n) as u64);
            line.word(b" and all");
        }
        Cause::Label(label) => {
            put_said_with(line, w, b": no label ", label);
            line.word(b", labels are 0 to 63");
        }
        Cause::Own(node) => {
            put_said_with(line, w, b": node ", node);
            line.word(b" would send to itself");
        }
        Cause::Ack(ack) => {
            put_said_with(line, w, b": no acknowledgement ", ack);
            line.word(b", they are 0 to 15");
        }
        Cause::Closed => put_said(line, w, b": not open when its turn comes"),
        Cause::Depth => {
            put_said(
                line,
                w,
                b": a route has at most 6 actions, on a bus of at most 8 nodes",
            )
        }
    }
}

#[tactic(auto, using(transcript::proofs::Writes::pieces), unfolding(crate::specs::Faults::fault_line))]
pub(crate) fn put_fault(line: &mut Line, number: u64, fault: Fault, cause: Cause, w: &[u8])
    ensures short { length (fault_line number fault cause w.now) ≤ longest }
    ensures writes { line.new ≡ written line.old (fault_line number fault cause w.now) }
{
    line.word(b"line ");
    line.figure(number);
    line.word(b": ");
    put_fault_words(line, fault);
    put_cause(line, cause, w);
    line.byte(b'\n');
}
