// Texts on standard input, line by line, and what is wrong in them on standard error: for `compose`, `find` and `trial`.
#![tactic(auto)]

ghost use Rattle.std.specs.Prelude.{◌≡◌, ◌≤◌, IfOk, IfSome, is_ok, true, false, length};

use faults::Fault;
use notation::Text;
use std::io;
use std::io::{Read, Write};
use stream::{Failure, ReadError};

// Where a text is read: where the bytes of the buffer that are not taken begin and end (places, since no struct can hold a slice of what it holds too),
// whether the input has ended, and whether no read failed.
#[derive(Clone, Copy)]
pub struct Lines {
    pub at: usize,
    pub end: usize,
    pub ended: bool,
    pub whole: bool,
}

// A text that is read by way of a buffer.
#[derive(Drop)]
pub struct Reader<'a, R> {
    pub reader: R,
    pub buf: &'a mut [u8],
    pub lines: Lines,
    ghost within: { (lines.at ≤ lines.end) × (lines.end ≤ length buf.now) },
}

impl<'a, R: Read + Drop> Reader<'a, R> {
    // Reads the first part of a text, in which a byte order mark counts for nothing.
    pub fn open(mut reader: R, buf: &'a mut [u8]) -> Result<Reader<'a, R>, ReadError>
        ensures { IfOk result (λ text. text.lines.whole ≡ true) }
    {
        let end = stream::fill(&mut reader, buf)?;
        Ok(Reader {
            lines: Lines {
                at: notation::mark_size(&buf[..end]),
                end,
                ended: end < buf.len(),
                whole: true,
            },
            reader,
            buf,
        })
    }

    // The next part of the text.
    fn read_on(&mut self) -> Result<(), ReadError>
        ensures { self.new.lines.whole ≡ is_ok result }
    {
        let filled = stream::fill(&mut self.reader, self.buf);
        let end = match &filled {
            Ok(end) => *end,
            Err(failed) => failed.count,
        };
        self.lines = Lines {
            at: 0,
            end,
            ended: end < self.buf.len(),
            whole: filled.is_ok(),
        };
        filled?;
        Ok(())
    }

    // The next line, without its newline, stands at the start of `line`; the last one may lack its newline. Answers its length, or None after the last one.
    // Of a longer line than `line` has room for its start stands there. After a failed read there is no next line, and an error is the answer.
    // A proved loop has to end, so it has as many turns as no text uses up.
    pub fn next_line(&mut self, line: &mut [u8]) -> Result<Option<usize>, ReadError>
        ensures in_line { IfOk result (λ len. IfSome len (λ len. len ≤ length line.new)) }
        ensures after_failure { self.old.lines.whole ≡ false → is_ok result ≡ false }
        ensures whole_value { self.new.lines.whole ≡ is_ok result }
    {
        if !self.lines.whole {
            return Err(ReadError {
                count: 0,
                error: io::Error::other("a read has failed"),
            });
        }
        let mut len = 0;
        for _ in 0..u64::MAX {
            let lines = self.lines;
            let taken = stream::take_line(&self.buf[lines.at..lines.end], line, len);
            len = taken.len;
            if let Some(rest) = taken.rest {
                self.lines.at = lines.end - rest.len();
                return Ok(Some(len));
            }
            self.lines.at = lines.end;
            if lines.ended {
                return Ok((0 < len).then_some(len));
            }
            self.read_on()?;
        }
        Ok(None)
    }
}

// What has taken the lines of a text, and how long the line is that was read last.
#[derive(Drop)]
pub struct Taken<S> {
    pub taker: S,
    pub len: usize,
}

// Feeds the lines of a text to what takes them, until it is over; its last line stands at the start of `line`. What takes them is lent with each line: by value
// it would be copied, at each line, to the closure and back.
pub fn read_text<
    R: Read + Drop,
    S: Drop,
    F: FnMut(&mut S, &[u8]) -> Result<(), Failure>,
    O: Fn(&S) -> bool,
>(reader: R, line: &mut [u8], start: S, mut feed: F, is_over: O) -> Result<Taken<S>, Failure>
    requires feeds { F.IsAlwaysCallable feed }
    requires ends { O.IsAlwaysCallable is_over }
    ensures { IfOk result (λ taken. taken.len ≤ length line.new) }
{
    let mut buf = [0u8; 65536];
    let mut text = Reader::open(reader, &mut buf)?;
    let mut taker = start;
    for _ in 0..u64::MAX {
        let Some(len) = text.next_line(line)? else {
            break;
        };
        feed(&mut taker, &line[..len])?;
        if is_over(&taker) {
            return Ok(Taken { taker, len });
        }
    }
    Ok(Taken { taker, len: 0 })
}

// What is wrong in a line with that number, with its cause, written where errors are told. Where they cannot be told nothing is left to do.
pub fn report<W: Write>(err: &mut W, sort: Text, n: u8, number: u64, fault: Fault, line: &[u8]) {
    let blamed = causes::blame(sort, n, line, fault);
    let mut text = [0u8; 512];
    let word = &line[blamed.from..blamed.to];
    let end = faults::put_fault(&mut text, 0, number, fault, blamed.cause, word);
    let _ = err.write_all(&text[..end]);
}
