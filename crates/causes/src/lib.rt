// Which part of a line is to blame for its fault, and why.
#![tactic(auto)]

ghost use Rattle.std.specs.Prelude.{◌≡◌, ◌<◌, ◌≤◌, length};
ghost use Rattle.causes.specs.Blame.{is_missing, is_wrong, ends_with, fatal_at, IsFirst, IsAfterLast, words_before};
ghost use Rattle.causes.specs.Blame.{word_in, statement_in, refusal_of, span, name_before, named_at, place_in_line, place_at, blamed, blame_in, blame_of};
ghost use Rattle.words.specs.Words.{kind_of};
ghost use Rattle.words.specs.Names.{word_number};

use charts::Refusal;
use faults::{Cause, Fault};
use notation::{Line, Text};
use words::{Cursor, Name, Token};

// Why a line has a fault, and the part of it that is to blame: its bytes from a place up to another.
#[derive(Clone, Copy)]
pub struct Blamed {
    pub cause: Cause,
    pub from: usize,
    pub to: usize,
}

// A part of a line.
#[derive(Clone, Copy)]
struct Span {
    from: usize,
    to: usize,
}

// Whether what a line says is wrong already, whatever follows: what misses a field may still get it.
#[tactic(auto, unfolding(crate::specs::Blame::is_wrong))]
fn is_wrong(said: Result<Line, Fault>) -> bool
    ensures { result ≡ is_wrong said }
{
    match said {
        Err(fault) => !matches!(fault, Fault::MissingField),
        Ok(_) => false,
    }
}

#[tactic(auto, unfolding(crate::specs::Blame::ends_with))]
fn ends_with(line: &[u8], i: usize) -> bool
    requires { i < length line.now }
    ensures { result ≡ ends_with line.now i }
{
    !words::is_blank(line[i]) && (line.len() <= i + 1 || words::is_blank(line[i + 1]))
}

// Whether a byte is the last of a word with which the line is wrong already, as one of that text.
#[tactic(auto, unfolding(crate::specs::Blame::fatal_at))]
fn is_fatal(text: Text, line: &[u8], i: usize) -> bool
    requires { i < length line.now }
    ensures { result ≡ fatal_at text line.now i }
{
    ends_with(line, i) && is_wrong(notation::parse_line(text, &line[..i + 1]))
}

// The first of n places that passes a test, or n.
fn first<F: Fn(usize) -> bool>(n: usize, test: F) -> usize
    requires { (i : _) → i < n → F.pre test i }
    ensures first { IsFirst (F.post test) n result }
    ensures upper_bound { result ≤ n }
{
    for i in 0..n {
        if test(i) {
            return i;
        }
    }
    n
}

// The place after the last of n places that passes a test, or 0.
fn after_last<F: Fn(usize) -> bool>(n: usize, test: F) -> usize
    requires { (i : _) → i < n → F.pre test i }
    ensures last { IsAfterLast (F.post test) n result }
    ensures upper_bound { result ≤ n }
{
    for i in (0..n).rev() {
        if test(i) {
            return i + 1;
        }
    }
    0
}

// How many words end before `end`.
fn words_before(line: &[u8], end: usize) -> usize
    requires { end ≤ length line.now }
    ensures value { result ≡ words_before line.now end }
    ensures upper_bound { result ≤ end }
{
    let mut k: usize = 0;
    for i in 0..end {
        if ends_with(line, i) {
            k += 1;
        }
    }
    k
}

fn word_in(text: Text, line: &[u8]) -> Span
    ensures value { result ≡ word_in text line.now }
    ensures from_le_to { (result.from ≤ result.to) × (result.to ≤ length line.now) }
{
    let last = first(line.len(), |i| is_fatal(text, line, i));
    if last < line.len() {
        return Span {
            from: after_last(last, |i| words::is_blank(line[i])),
            to: last + 1,
        };
    }
    Span { from: 0, to: 0 }
}

fn statement_in(line: &[u8]) -> Span
    ensures value { result ≡ statement_in line.now }
    ensures from_le_to { (result.from ≤ result.to) × (result.to ≤ length line.now) }
{
    let from = first(line.len(), |i| !words::is_blank(line[i]));
    if from < line.len() {
        return Span {
            from,
            to: after_last(line.len(), |i| !words::is_blank(line[i])),
        };
    }
    Span { from: 0, to: 0 }
}

// The name of the line's first word.
fn kind_of(line: &[u8]) -> Option<Name>
    ensures { result ≡ kind_of line.now }
{
    match words::next_word(line, Cursor { at: 0 }) {
        Some((Token::Word(k), _)) => k,
        _ => None,
    }
}

// What a refusal by number k is about.
#[tactic(auto, unfolding(crate::specs::Blame::refusal_of))]
fn refusal(n: u8, k: u8, said: Result<Line, Fault>) -> Cause
    ensures { result ≡ refusal_of n k said }
{
    match said {
        Ok(Line::Nodes(_)) if k == Refusal::WrongSize.number() => Cause::Size,
        Ok(Line::Acts(a, _)) if k == Refusal::WrongNode.number() => Cause::Node(a.node, n),
        Ok(Line::Acts(a, _)) if k == Refusal::WrongAddress.number() => Cause::Address(a.address, n),
        Ok(Line::Acts(a, _)) if k == Refusal::WrongLabel.number() => Cause::Label(a.label),
        Ok(Line::Acts(a, _)) if k == Refusal::ToItself.number() => Cause::Own(a.node),
        Ok(Line::Acts(a, _)) if k == Refusal::WrongAnswer.number() => Cause::Ack(a.ack),
        Ok(Line::Acts(_, _)) if k == Refusal::NotOpen.number() => Cause::Closed,
        Ok(Line::User(node, _)) if k == Refusal::WrongNode.number() => Cause::Node(node, n),
        Ok(Line::User(_, u)) if k == Refusal::WrongAddress.number() => Cause::Address(u.address, n),
        Ok(Line::User(node, _)) if k == Refusal::ToItself.number() => Cause::Own(node),
        Ok(Line::Finds(_, _)) if k == Refusal::TooDeep.number() => Cause::Depth,
        Ok(Line::Finds(q, _)) if k == Refusal::WrongNode.number() => Cause::Node(q.node, n),
        _ => Cause::Plain,
    }
}

fn at_span(cause: Cause, s: Span) -> Blamed
    ensures { result ≡ blamed cause s }
{
    let Span { from, to } = s;
    Blamed { cause, from, to }
}

fn nowhere(cause: Cause) -> Blamed
    ensures { result ≡ blamed cause (span 0 0) }
{
    at_span(cause, Span { from: 0, to: 0 })
}

fn number_of(name: Option<Name>) -> u8
    ensures { result ≡ word_number name }
{
    name.map_or(0, |k| k.number())
}

// The name of the last word before a place.
fn name_before(line: &[u8], i: usize) -> Option<Name>
    requires { i ≤ length line.now }
    ensures { result ≡ name_before line.now i }
{
    let to = after_last(i, |i| !words::is_blank(line[i]));
    let from = after_last(to, |i| words::is_blank(line[i]));
    words::named(&line[from..to])
}

// The name by which the field is told that begins at `i`.
#[tactic(auto, unfolding(crate::specs::Blame::named_at))]
fn named_at(text: Text, line: &[u8], i: usize) -> u8
    requires { i ≤ length line.now }
    ensures { result ≡ named_at text line.now i }
{
    match text {
        Text::Run | Text::Question => number_of(kind_of(line)),
        Text::Settings => number_of(name_before(line, i)),
    }
}

// How many words stand before `i`; 0 for what follows a `*`.
fn place_in_line(line: &[u8], i: usize) -> u8
    requires line_len_bound { length line.now ≤ 255 }
    requires i_in_bounds { i ≤ length line.now }
    ensures { result ≡ place_in_line line.now i }
{
    let star = after_last(i, |i| line[i] == b'*');
    let word = after_last(i, |i| !words::is_blank(line[i]));
    if star == word {
        return 0;
    }
    words_before(line, i) as u8
}

// The place by which the field is told that begins at `i`.
#[tactic(auto, unfolding(crate::specs::Blame::place_at))]
fn place_at(text: Text, line: &[u8], i: usize) -> u8
    requires line_len_bound { length line.now ≤ 255 }
    requires i_in_bounds { i ≤ length line.now }
    ensures { result ≡ place_at text line.now i }
{
    match text {
        Text::Run | Text::Question => place_in_line(line, i),
        Text::Settings => 1,
    }
}

// A line without its comment.
#[tactic(auto, unfolding(crate::specs::Blame::blame_in))]
fn blame_in(text: Text, n: u8, line: &[u8], fault: Fault) -> Blamed
    requires { length line.now ≤ 255 }
    ensures value { result ≡ blame_in text n line.now fault }
    ensures from_le_to { (result.from ≤ result.to) × (result.to ≤ length line.now) }
{
    match fault {
        Fault::UnknownWord | Fault::ExtraField => at_span(Cause::Quoted, word_in(text, line)),
        Fault::NotNumber | Fault::TooLarge => {
            let w = word_in(text, line);
            let name = named_at(text, line, w.from);
            let place = place_at(text, line, w.from);
            if fault == Fault::TooLarge {
                at_span(Cause::Large(name, place), w)
            } else {
                at_span(Cause::Field(name, place), w)
            }
        }
        Fault::MissingField => {
            let name = named_at(text, line, line.len());
            nowhere(Cause::Missing(name, place_at(text, line, line.len())))
        }
        Fault::Refused(k) => {
            let said = notation::parse_line(text, line);
            at_span(refusal(n, k, said), statement_in(line))
        }
        _ => nowhere(Cause::Plain),
    }
}

// What is to blame for the fault of a line of a text. n is the number of nodes.
pub fn blame(text: Text, n: u8, line: &[u8], fault: Fault) -> Blamed
    ensures value { result ≡ blame_of text n line.now fault }
    ensures from_le_to { (result.from ≤ result.to) × (result.to ≤ length line.now) }
{
    if 255 < line.len() {
        return nowhere(Cause::Plain);
    }
    let end = first(line.len(), |i| line[i] == b'#');
    blame_in(text, n, &line[..end], fault)
}
