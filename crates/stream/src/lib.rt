// Output and input in large parts, by way of buffers that the caller lends, and lines in such a buffer.
// A failed write or read is told, never passed over. Whether one fails is the operating system's answer, which no contract can say.
#![tactic(auto)]

ghost use Rattle.std.specs.Prelude.{◌≡◌, Some, None, MatchOption, IfSome, OnOk, OnErr, IfOk, is_ok, true, false, cond, ◌+◌, ◌-◌, ◌≤◌, ◌<◌, min, length, take};
ghost use Rattle.std.proofs.Props.{props};
ghost use Rattle.std.proofs.lemmas.List.Edits.{sets};
ghost use Rattle.std.specs.Counts.{IsPrefixLen};
ghost use Rattle.std.specs.Io.KnownBytes.{Appends, Consumes, IsAtEnd};
ghost use Rattle.stream.specs.Collected.{count_of, sent, taken_as, used_after, held_after, buf_after};
ghost use Rattle.stream.specs.Lines.{newline_of, added, rest_of};
ghost use Rattle.stream.specs.Reading.{count_read};
ghost use Rattle.stream.specs.declared.Failure.TheVariants.{Input};

use std::fmt::Display;
use std::io;
use std::io::{Eprint, Read, Write};

// What is written to, by way of a buffer.
#[derive(Drop)]
pub struct Sink<'a, W> {
    pub writer: W,
    pub buf: &'a mut [u8],
    // How many bytes of the buffer are still to be written. None once a write has failed: then nothing more is held or written.
    pub held: Option<usize>,
    ghost within: { IfSome held (λ used. used ≤ length buf.now) } by { Prim.hlevel props },
}

// A read that failed: how many bytes were read before it, and why.
#[derive(Drop)]
pub struct ReadError {
    pub count: usize,
    pub error: io::Error,
}

// What stops a program: a read or a write that failed.
#[derive(Drop)]
pub enum Failure {
    Input(io::Error),
    Output(io::Error),
}

impl From<ReadError> for Failure {
    ghost from_gives = { λ failed failure. failure ≡ Input failed.error };

    fn from(failed: ReadError) -> Failure {
        Failure::Input(failed.error)
    }
}

// How many bytes a line has with those that were added, and what stands after their newline: None where there is none.
#[derive(Clone, Copy)]
pub struct Taken<'a> {
    pub len: usize,
    pub rest: Option<&'a [u8]>,
}

// Copies a text into a buffer from a place on.
fn copy_at(out: &mut [u8], at: usize, text: &[u8])
    requires { at + length text.now ≤ length out.old }
    ensures { out.new ≡ sets out.old at text.now }
{
    out[at..at + text.len()].copy_from_slice(text);
}

// Writes the bytes held. The buffer is lent as `&mut`: through `&` the proof loses what a lent field of a sink has.
fn write_held<W: Write>(writer: &mut W, out: &mut [u8], used: usize) -> io::Result<()>
    requires { used ≤ length out.old }
    ensures out { out.new ≡ out.old }
    ensures written { OnOk result (Appends (W.contents writer.old) (W.contents writer.new) (take used out.old)) }
{
    writer.write_all(&out[..used])
}

// Adds a text after the bytes held, or writes these first where it has no room. Answers how many are held then.
#[tactic(auto, using(crate::proofs::Sent::held_on, crate::proofs::Sent::put_on), unfolding(crate::specs::Collected::used_after, crate::specs::Collected::collected))]
fn add<W: Write>(writer: &mut W, out: &mut [u8], used: usize, text: &[u8]) -> io::Result<usize>
    requires { used ≤ length out.old }
    ensures taken { is_ok result ≡ taken_as (Some used) out.old text.now (is_ok result) }
    ensures used_in_bounds { IfOk result (λ n. n ≤ length out.new) }
    ensures used_value { IfOk result (λ n. n ≡ used_after out.old used text.now) }
    ensures out_after { out.new ≡ buf_after (is_ok result) out.old (Some used) text.now }
    ensures none_lost { IfOk result (λ n. Appends (sent (W.contents writer.old) out.old (Some used)) (sent (W.contents writer.new) out.new (Some n)) text.now) }
{
    if text.len() <= out.len() - used {
        copy_at(out, used, text);
        return Ok(used + text.len());
    }
    write_held(writer, out, used)?;
    if text.len() <= out.len() {
        copy_at(out, 0, text);
        return Ok(text.len());
    }
    writer.write_all(text)?;
    Ok(0)
}

impl<'a, W: Write> Sink<'a, W> {
    pub fn new(writer: W, buf: &'a mut [u8]) -> Sink<'a, W>
        ensures writer { result.writer ≡ writer }
        ensures same_buffer { result.buf.ghost_name ≡ buf.entry.ghost_name }
        ensures buf { result.buf.now ≡ buf.old }
        ensures held { result.held ≡ Some 0 }
    {
        Sink {
            writer,
            buf,
            held: Some(0),
        }
    }

    // Takes the bytes held, and answers how many they are. After a failed write there is nothing to take, and an error is the answer.
    fn take_held(&mut self) -> io::Result<usize>
        ensures same_buffer { self.new.buf.ghost_name ≡ self.old.buf.ghost_name }
        ensures buf { self.new.buf.now ≡ self.old.buf.now }
        ensures writer { self.new.writer ≡ self.old.writer }
        ensures held { self.new.held ≡ None }
        ensures ok { IfOk result (λ used. self.old.held ≡ Some used) }
        ensures in_bounds { IfOk result (λ used. used ≤ length self.new.buf.now) }
        ensures err { OnErr result (self.old.held ≡ None) }
    {
        self.held
            .take()
            .ok_or_else(|| io::Error::other("a write has failed"))
    }

    // Adds a text to the bytes that the buffer holds; without room for it these are written out first, and what is longer than the buffer is written
    // out too. While every write is taken, what is written and then held grows by the text alone. After a failed write the buffer is as it was,
    // nothing is held, and no text is taken.
    pub fn put(&mut self, text: &[u8]) -> io::Result<()>
        ensures same_buffer { self.new.buf.ghost_name ≡ self.old.buf.ghost_name }
        ensures taken { is_ok result ≡ taken_as self.old.held self.old.buf.now text.now (is_ok result) }
        ensures held_value { self.new.held ≡ held_after (is_ok result) self.old.buf.now self.old.held text.now }
        ensures buf_value { self.new.buf.now ≡ buf_after (is_ok result) self.old.buf.now self.old.held text.now }
        ensures none_lost { OnOk result (Appends
            (sent (W.contents self.old.writer) self.old.buf.now self.old.held)
            (sent (W.contents self.new.writer) self.new.buf.now self.new.held) text.now) }
    {
        let used = self.take_held()?;
        self.held = Some(add(&mut self.writer, self.buf, used, text)?);
        Ok(())
    }

    // Writes what is held.
    pub fn flush(&mut self) -> io::Result<()>
        ensures same_buffer { self.new.buf.ghost_name ≡ self.old.buf.ghost_name }
        ensures after_failure { self.old.held ≡ None → is_ok result ≡ false }
        ensures held_value { self.new.held ≡ cond (is_ok result) (Some 0) None }
        ensures buf_value { self.new.buf.now ≡ self.old.buf.now }
        ensures written { OnOk result (Appends (W.contents self.old.writer) (W.contents self.new.writer) (take (count_of self.old.held) self.old.buf.now)) }
    {
        let used = self.take_held()?;
        write_held(&mut self.writer, self.buf, used)?;
        self.held = Some(0);
        Ok(())
    }

    // Ends a program: tells what has stopped it, and writes what is held, unless a write has failed. Answers whether all was written.
    pub fn end(&mut self, err: &impl Eprint, program: &str, outcome: Result<(), Failure>) -> bool
        ensures same_buffer { self.new.buf.ghost_name ≡ self.old.buf.ghost_name }
        ensures after_failure { self.old.held ≡ None → result ≡ false }
        ensures held_value { self.new.held ≡ cond result (Some 0) None }
        ensures buf_value { self.new.buf.now ≡ self.old.buf.now }
        ensures written { result ≡ true → Appends (W.contents self.old.writer) (W.contents self.new.writer) (take (count_of self.old.held) self.old.buf.now) }
    {
        if let Err(failure) = outcome {
            failure.tell(err, program);
        }
        if self.held.is_none() {
            return false;
        }
        if let Err(error) = self.flush() {
            Failure::Output(error).tell(err, program);
            return false;
        }
        true
    }
}

// Reads until the buffer is full, the input ends or a read fails; answers how many bytes were read.
pub fn fill<R: Read>(reader: &mut R, buf: &mut [u8]) -> Result<usize, ReadError>
    ensures prefix_len { IsPrefixLen (count_read result) buf.new }
    ensures none_lost { Consumes (R.remaining reader.old) (R.remaining reader.new) (take (count_read result) buf.new) }
    ensures at_end { IfOk result (λ count. count < length buf.new → IsAtEnd (R.remaining reader.new)) }
{
    let mut count = 0;
    // no iterator: a read gives as many bytes as it will
    while count < buf.len() {
        match reader.read(&mut buf[count..]) {
            Ok(0) => break,
            Ok(more) => count += more,
            Err(error) => return Err(ReadError { count, error }),
        }
    }
    Ok(count)
}

// Adds to the first `len` bytes of a line what fits of some bytes.
fn append(line: &mut [u8], len: usize, more: &[u8]) -> usize
    requires { len ≤ length line.old }
    ensures upper_bound { result ≤ length line.new }
    ensures value { result ≡ len + length (take (length line.old - len) more.now) }
    ensures line_after { line.new ≡ sets line.old len (take (length line.old - len) more.now) }
{
    let size = more.len().min(line.len() - len);
    copy_at(line, len, &more[..size]);
    len + size
}

fn newline_in(bytes: &[u8]) -> Option<usize>
    ensures value { result ≡ newline_of bytes.now }
    ensures in_bounds { IfSome result (λ newline. newline < length bytes.now) }
{
    bytes.iter().position(|byte| *byte == b'\n')
}

// Takes the bytes up to the next newline, and adds them to the first `len` bytes of a line; what does not fit into it is dropped.
pub fn take_line<'a>(bytes: &'a [u8], line: &mut [u8], len: usize) -> Taken<'a>
    ensures prefix_len { IsPrefixLen result.len line.new }
    ensures shorter { IfSome result.rest (λ rest. length rest.now < length bytes.now) }
    ensures len_value { result.len ≡ min len (length line.old) + length (added bytes.now (length line.old) len) }
    ensures rest_value { MatchOption result.rest (rest_of bytes.now ≡ None) (λ rest. rest_of bytes.now ≡ Some rest.now) }
    ensures line_after { line.new ≡ sets line.old (min len (length line.old)) (added bytes.now (length line.old) len) }
{
    let len = len.min(line.len());
    match newline_in(bytes) {
        Some(newline) => Taken {
            len: append(line, len, &bytes[..newline]),
            rest: Some(&bytes[newline + 1..]),
        },
        None => Taken {
            len: append(line, len, bytes),
            rest: None,
        },
    }
}

// The longest text of an error that is told.
const REASON: usize = 320;

// The text of an error without its number, which ends it as ` (os error 28)`.
fn reason_of(text: &[u8]) -> &str {
    let text = str::from_utf8(text).unwrap_or("");
    text.split_once(" (os error ")
        .map_or(text, |(reason, _)| reason)
}

// Puts the text of an error into a buffer, and answers how much of it is used.
fn put_error(text: &mut [u8], error: io::Error) -> usize
    ensures { IsPrefixLen result text.new }
{
    let size = text.len();
    let mut rest = &mut text[..];
    let _ = write!(rest, "{error}");
    size.saturating_sub(rest.len())
}

// Says on standard error what failed, and why.
fn tell_of(err: &impl Eprint, what: &impl Display, error: Option<io::Error>) {
    let mut text = [0u8; REASON];
    let size = match error {
        Some(error) => put_error(&mut text, error),
        None => 0,
    };
    let reason = reason_of(&text[..size]);
    let _ = eprintln!(err; "{what}: {reason}");
}

// Says on standard error what failed, and why: a line as `play: standard output: No space left on device`.
pub fn tell(err: &impl Eprint, what: &str, error: Option<io::Error>) {
    tell_of(err, &what, error);
}

impl Failure {
    // Tells it as that of a program, whose standard input or output it is.
    pub fn tell(self, err: &impl Eprint, program: &str) {
        let (name, error) = match self {
            Failure::Input(error) => ("input", error),
            Failure::Output(error) => ("output", error),
        };
        tell_of(
            err,
            &format_args!("{program}: standard {name}"),
            Some(error),
        );
    }
}

// Writes the whole output of a program, and tells where that fails. Answers whether it was written.
pub fn print<W: Write>(err: &impl Eprint, program: &str, writer: &mut W, text: &[u8]) -> bool
    ensures { result ≡ true → Appends (W.contents writer.old) (W.contents writer.new) text.now }
{
    if let Err(error) = writer.write_all(text) {
        Failure::Output(error).tell(err, program);
        return false;
    }
    true
}
