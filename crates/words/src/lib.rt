// The words of a line, one after the other, and what each of them is.
#![tactic(auto)]

ghost use Rattle.std.specs.Prelude.{◌≡◌, false, [], ◌∷◌, ◌+◌, ◌-◌, ◌<◌, ◌≤◌, length, take, drop, get_or};
ghost use Rattle.words.specs.Words.{is_blank, ends_word, texts, named_in, name_of, digit_of, digits_of, is_hex, token_of, value_of};
ghost use Rattle.words.specs.Names.{name_number};
ghost use Rattle.words.specs.Cursors.{tokens_left, stepped};

use charts::{Kind, Word};

const LIMIT: u64 = 4294967296;

// A place in a line.
#[derive(Clone, Copy, PartialEq, Eq)]
pub struct Cursor {
    pub at: usize,
}

// The words that have a meaning: the kinds of actions, the other words of runs, those that settings alone have, and those that questions alone have, the kinds of
// reports last.
#[derive(Clone, Copy, PartialEq, Eq)]
pub enum Name {
    Kind(Kind),
    Nodes,
    All,
    Hold,
    Times,
    Label,
    Actions,
    User,
    To,
    Spell,
    Fillers,
    Find,
    Within,
    Report(Word),
}

impl Name {
    // The place among the names, from 1 on.
    pub fn number(self) -> u8
        ensures { result ≡ name_number self }
    {
        match self {
            Name::Kind(kind) => kind.number(),
            Name::Nodes => 13,
            Name::All => 14,
            Name::Hold => 15,
            Name::Times => 16,
            Name::Label => 17,
            Name::Actions => 18,
            Name::User => 19,
            Name::To => 20,
            Name::Spell => 21,
            Name::Fillers => 22,
            Name::Find => 23,
            Name::Within => 24,
            Name::Report(word) => 25 + word as u8,
        }
    }
}

// What a word is: a name, or none that is known; a number, or a number over 32 bits.
#[derive(Clone, Copy, PartialEq, Eq)]
pub enum Token {
    Word(Option<Name>),
    Number(u32),
    Large,
}

static NAMES: [(&[u8], Name); 33] = [
    (b"request", Name::Kind(Kind::Request)),
    (b"arbitrate", Name::Kind(Kind::Arbitrate)),
    (b"respond", Name::Kind(Kind::Respond)),
    (b"clock", Name::Kind(Kind::Clock)),
    (b"pass", Name::Kind(Kind::Pass)),
    (b"lose", Name::Kind(Kind::Lose)),
    (b"change", Name::Kind(Kind::Change)),
    (b"grant", Name::Kind(Kind::Grant)),
    (b"gap", Name::Kind(Kind::Gap)),
    (b"reset", Name::Kind(Kind::Reset)),
    (b"ask", Name::Kind(Kind::Ask)),
    (b"decide", Name::Kind(Kind::Decide)),
    (b"nodes", Name::Nodes),
    (b"all", Name::All),
    (b"hold", Name::Hold),
    (b"*", Name::Times),
    (b"label", Name::Label),
    (b"actions", Name::Actions),
    (b"user", Name::User),
    (b"to", Name::To),
    (b"spell", Name::Spell),
    (b"fillers", Name::Fillers),
    (b"find", Name::Find),
    (b"within", Name::Within),
    (b"won", Name::Report(Word::Won)),
    (b"lost", Name::Report(Word::Lost)),
    (b"sent", Name::Report(Word::Sent)),
    (b"ack", Name::Report(Word::Ack)),
    (b"miss", Name::Report(Word::Miss)),
    (b"drop", Name::Report(Word::Drop)),
    (b"good", Name::Report(Word::Good)),
    (b"dcrc", Name::Report(Word::Dcrc)),
    (b"broad", Name::Report(Word::Broad)),
];

pub fn is_blank(b: u8) -> bool
    ensures { result ≡ is_blank b }
{
    matches!(b, b' ' | b'\t' | b'\r')
}

fn ends_word(b: u8) -> bool
    ensures { result ≡ ends_word b }
{
    is_blank(b) || b == b'#'
}

// The name that a text stands for in a table.
fn look_up(names: &[(&[u8], Name)], w: &[u8]) -> Option<Name>
    ensures { result ≡ named_in (texts names.now) w.now }
{
    let (_, name) = names.iter().find(|(text, _)| w == *text)?;
    Some(*name)
}

// A word's name.
#[tactic(auto, unfolding(crate::specs::Words::name_of))]
pub fn named(w: &[u8]) -> Option<Name>
    ensures { result ≡ name_of w.now }
{
    look_up(&NAMES, w)
}

// A byte's digit; 16 for a byte that is none.
#[tactic(auto, unfolding(crate::specs::Words::digit_of))]
fn digit(b: u8) -> u8
    ensures value { result ≡ digit_of b }
    ensures upper_bound { result ≤ 16 }
{
    match b {
        b'0'..=b'9' => b - b'0',
        b'A'..=b'F' => b - b'A' + 10,
        b'a'..=b'f' => b - b'a' + 10,
        _ => 16,
    }
}

fn value(x: u64) -> Token
    ensures { result ≡ value_of x }
{
    match u32::try_from(x) {
        Ok(number) => Token::Number(number),
        Err(_) => Token::Large,
    }
}

// The number that digits of a base are.
#[tactic(auto, unfolding(crate::specs::Words::digits_of))]
fn number(base: u8, w: &[u8]) -> Token
    requires { base ≤ 16 }
    ensures { result ≡ digits_of base w.now }
{
    let mut x: u64 = 0;
    for b in w {
        let d = digit(*b);
        if base <= d {
            return Token::Word(None);
        }
        x = (x * base as u64 + d as u64).min(LIMIT);
    }
    value(x)
}

fn is_hex(w: &[u8]) -> bool
    ensures { result ≡ is_hex w.now }
{
    matches!(w, [b'0', b'x' | b'X', ..])
}

// What a word is.
#[tactic(auto, unfolding(crate::specs::Words::token_of))]
fn token_of(w: &[u8]) -> Token
    requires { 0 < length w.now }
    ensures { result ≡ token_of w.now }
{
    if 10 <= digit(w[0]) {
        return Token::Word(named(w));
    }
    if !is_hex(w) {
        return number(10, w);
    }
    if w.len() <= 2 {
        return Token::Word(None);
    }
    number(16, &w[2..])
}

// The first place from `at` on that is no blank.
fn skip_blanks(line: &[u8], at: usize) -> usize
    ensures result_value { tokens_left line.now result ≡ tokens_left line.now at }
    ensures result_value_2 { result < length line.now → is_blank (get_or line.now result 0) ≡ false }
{
    for i in at..line.len() {
        if !is_blank(line[i]) {
            return i;
        }
    }
    line.len()
}

// The end of the word that begins at a place.
fn end_of_word(line: &[u8], from: usize) -> usize
    requires from_in_bounds { from < length line.now }
    requires from_value { ends_word (get_or line.now from 0) ≡ false }
    ensures lower_bound { (from < result) × (result ≤ length line.now) }
    ensures from_value_2 { tokens_left line.now from ≡ token_of (take (result - from) (drop from line.now)) ∷ tokens_left line.now result }
{
    for i in from + 1..line.len() {
        if ends_word(line[i]) {
            return i;
        }
    }
    line.len()
}

// The next word from a cursor on, and the place after it.
pub fn next_word(line: &[u8], c: Cursor) -> Option<(Token, Cursor)>
    ensures { tokens_left line.now c.at ≡ stepped line.now result }
{
    let from = skip_blanks(line, c.at);
    if line.len() <= from || line[from] == b'#' {
        return None;
    }
    let to = end_of_word(line, from);
    Some((token_of(&line[from..to]), Cursor { at: to }))
}
