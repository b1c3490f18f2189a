// The fields of a line in plain words: each reads on from a cursor.
#![tactic(auto)]

ghost use Rattle.std.specs.Prelude.{◌≡◌};
ghost use Rattle.std.specs.Option.{option_map};
ghost use Rattle.words.specs.Cursors.{tokens_left};
ghost use Rattle.fields.specs.Fields.{seen, field_fits, is_word, after_word, numeral, number_in, address_at, address_in, address_or_none, said_in, to_in, hold_in};
ghost use Rattle.fields.specs.Fields.{report_in, depth_in};

use charts::Word;
use faults::Fault;
use words::{Cursor, Name, Token};

// The largest numbers of fields of 8, 16 and 32 bits.
pub const BYTE: u32 = 255;

pub const SHORT: u32 = 65535;

pub const LONG: u32 = 4294967295;

const EVERYBODY: u32 = 63;

// A field of a line: its value and the place after it, or what is wrong.
pub type Field = Result<(u32, Cursor), Fault>;

// Whether a word is that name.
#[tactic(auto, using(crate::proofs::Fields::is_word_lem))]
pub fn is_word(t: Token, k: Name) -> bool
    ensures { result ≡ is_word k t }
{
    t == Token::Word(Some(k))
}

// The place after a word that may be said.
fn after(line: &[u8], k: Name, c: Cursor) -> Option<Cursor>
    ensures { option_map (λ next. tokens_left line.now next.at) result ≡ after_word k (tokens_left line.now c.at) }
{
    match words::next_word(line, c) {
        Some((t, next)) if is_word(t, k) => Some(next),
        _ => None,
    }
}

// A word as a number of at most `most`.
fn as_number(line: &[u8], most: u32, t: Token, c: Cursor) -> Field
    ensures result_value { seen line.now result ≡ numeral most t (tokens_left line.now c.at) }
    ensures field_fits { field_fits most result }
{
    match t {
        Token::Word(_) => Err(Fault::NotNumber),
        Token::Number(x) if x <= most => Ok((x, c)),
        _ => Err(Fault::TooLarge),
    }
}

// A number of at most `most`.
#[tactic(auto, unfolding(crate::specs::Fields::number_in))]
pub fn number(line: &[u8], most: u32, c: Cursor) -> Field
    ensures result_value { seen line.now result ≡ number_in most (tokens_left line.now c.at) }
    ensures field_fits { field_fits most result }
{
    let (t, next) = words::next_word(line, c).ok_or(Fault::MissingField)?;
    as_number(line, most, t, next)
}

// A word as an address.
fn as_address(line: &[u8], t: Token, c: Cursor) -> Field
    ensures result_value { seen line.now result ≡ address_at t (tokens_left line.now c.at) }
    ensures field_fits { field_fits 255 result }
{
    if is_word(t, Name::All) {
        return Ok((EVERYBODY, c));
    }
    as_number(line, BYTE, t, c)
}

// An address, or `all`.
#[tactic(auto, unfolding(crate::specs::Fields::address_in))]
pub fn address(line: &[u8], c: Cursor) -> Field
    ensures result_value { seen line.now result ≡ address_in (tokens_left line.now c.at) }
    ensures field_fits { field_fits 255 result }
{
    let (t, next) = words::next_word(line, c).ok_or(Fault::MissingField)?;
    as_address(line, t, next)
}

// The address of a `change`, 0 where it has none.
#[tactic(auto, unfolding(crate::specs::Fields::address_or_none))]
pub fn address_or_none(line: &[u8], c: Cursor) -> Field
    ensures result_value { seen line.now result ≡ address_or_none (tokens_left line.now c.at) }
    ensures field_fits { field_fits 255 result }
{
    match words::next_word(line, c) {
        Some((t, next)) if !is_word(t, Name::Times) => as_address(line, t, next),
        _ => Ok((0, c)),
    }
}

// `hold` is 1, and 0 where it is not said.
#[tactic(auto, using(crate::proofs::Fields::option_after))]
pub fn hold(line: &[u8], c: Cursor) -> Field
    ensures result_value { seen line.now result ≡ hold_in (tokens_left line.now c.at) }
    ensures field_fits { field_fits 1 result }
{
    match after(line, Name::Hold, c) {
        Some(next) => Ok((1, next)),
        None => Ok((0, c)),
    }
}

// The number after a word that may be said; 0 where it is not.
#[tactic(auto, using(crate::proofs::Fields::option_after))]
pub fn said(line: &[u8], k: Name, c: Cursor) -> Field
    ensures result_value { seen line.now result ≡ said_in k (tokens_left line.now c.at) }
    ensures field_fits { field_fits 255 result }
{
    match after(line, k, c) {
        Some(next) => number(line, BYTE, next),
        None => Ok((0, c)),
    }
}

// The address after `to`; 0 where it is not said.
#[tactic(auto, using(crate::proofs::Fields::option_after))]
pub fn to(line: &[u8], c: Cursor) -> Field
    ensures result_value { seen line.now result ≡ to_in (tokens_left line.now c.at) }
    ensures field_fits { field_fits 255 result }
{
    match after(line, Name::To, c) {
        Some(next) => address(line, next),
        None => Ok((0, c)),
    }
}

// A report, by its first word.
#[tactic(auto, unfolding(crate::specs::Fields::report_in))]
pub fn report(line: &[u8], c: Cursor) -> Result<(Word, Cursor), Fault>
    ensures { seen line.now result ≡ report_in (tokens_left line.now c.at) }
{
    match words::next_word(line, c).ok_or(Fault::MissingField)? {
        (Token::Word(Some(Name::Report(word))), next) => Ok((word, next)),
        _ => Err(Fault::UnknownWord),
    }
}

// The depth after `within`.
#[tactic(auto, unfolding(crate::specs::Fields::depth_in))]
pub fn depth(line: &[u8], c: Cursor) -> Field
    ensures result_value { seen line.now result ≡ depth_in (tokens_left line.now c.at) }
    ensures field_fits { field_fits 255 result }
{
    let (t, next) = words::next_word(line, c).ok_or(Fault::MissingField)?;
    if !is_word(t, Name::Within) {
        return Err(Fault::UnknownWord);
    }
    number(line, BYTE, next)
}
