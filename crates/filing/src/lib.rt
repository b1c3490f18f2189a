// A program that reads a run file and writes a text: `play`, `list` and `sums` around their walks.
#![tactic(auto)]

ghost use Rattle.std.specs.Prelude.{◌≡◌, ◌<◌, ◌%◌, true, false, length, MatchOption, IfOk, OnOk, Some, None, IsSome};
ghost use Rattle.std.specs.Io.KnownBytes.{Appends};
ghost use Rattle.stream.specs.Collected.{sent};
ghost use Rattle.files.specs.Order.{is_ended};
ghost use Rattle.files.specs.Pieces.{pieces};
ghost use Rattle.walk.specs.Feeding.{finish_of};
ghost use Rattle.filing.specs.Walked.{pieces_text, pieces_after, Walks};

use std::io;
use std::io::{Eprint, Read, Write};
use stream::{Failure, Sink};
use walk::Walk;

const BLOCK: usize = 512;

// Feeds a walk the pieces of some input. Answers the walk after them, or None where a refusal has ended it.
fn feed_pieces<K: Walk, W: Write>(
    mut walk: K,
    input: &[u8],
    text: &mut [u8; 2048],
    sink: &mut Sink<'_, W>,
) -> Result<Option<K>, Failure>
    ensures same_buffer { sink.new.buf.ghost_name ≡ sink.old.buf.ghost_name }
    ensures stays_failed { sink.old.held ≡ None → sink.new.held ≡ None }
    ensures refusal_taken { IfOk result (λ next. next ≡ None → IsSome sink.new.held) }
    ensures walk_value { IfOk result (λ next. MatchOption next
        (is_ended (pieces_after K.walker (pieces input.now) (K.seen walk)).stage ≡ true)
        (λ next. K.seen next ≡ pieces_after K.walker (pieces input.now) (K.seen walk))) }
    ensures none_lost { OnOk result (Appends
        (sent (W.contents sink.old.writer) sink.old.buf.now sink.old.held)
        (sent (W.contents sink.new.writer) sink.new.buf.now sink.new.held)
        (pieces_text K.walker (pieces input.now) (K.seen walk))) }
{
    for piece in input.chunks(BLOCK) {
        let fed = walk.feed(piece, text);
        sink.put(&text[..fed.end]).map_err(Failure::Output)?;
        if fed.ended {
            return Ok(None);
        }
        walk = fed.walk;
    }
    Ok(Some(walk))
}

// The text of the file's end.
fn put_end<K: Walk, W: Write>(
    walk: K,
    text: &mut [u8; 2048],
    sink: &mut Sink<'_, W>,
) -> Result<(), Failure>
    ensures same_buffer { sink.new.buf.ghost_name ≡ sink.old.buf.ghost_name }
    ensures stays_failed { sink.old.held ≡ None → sink.new.held ≡ None }
    ensures all_taken { OnOk result (IsSome sink.new.held) }
    ensures none_lost { OnOk result (Appends
        (sent (W.contents sink.old.writer) sink.old.buf.now sink.old.held)
        (sent (W.contents sink.new.writer) sink.new.buf.now sink.new.held)
        (finish_of K.walker.done (K.seen walk).stage)) }
{
    let end = walk.finish(text);
    sink.put(&text[..end]).map_err(Failure::Output)
}

// Reads chunk after chunk, and feeds the walk its pieces, to the end of the input or to a refusal. A proved loop has to end, so it has as many turns as
// no file uses up.
fn walk_input<K: Walk, R: Read, W: Write>(
    reader: &mut R,
    input: &mut [u8],
    sink: &mut Sink<'_, W>,
) -> Result<(), Failure>
    requires whole_blocks { length input.old % 512 ≡ 0 }
    requires room { 0 < length input.old }
    ensures same_buffer { sink.new.buf.ghost_name ≡ sink.old.buf.ghost_name }
    ensures stays_failed { sink.old.held ≡ None → sink.new.held ≡ None }
    ensures all_taken { OnOk result (IsSome sink.new.held) }
    ensures walks { OnOk result (Walks K.walker (R.remaining reader.old)
        (sent (W.contents sink.old.writer) sink.old.buf.now sink.old.held)
        (sent (W.contents sink.new.writer) sink.new.buf.now sink.new.held)) }
{
    let mut walk = K::start();
    let mut text = [0u8; 2048];
    for _ in 0..u64::MAX {
        let count = stream::fill(reader, input)?;
        let Some(next) = feed_pieces(walk, &input[..count], &mut text, sink)? else {
            return Ok(());
        };
        walk = next;
        if count < input.len() {
            return put_end(walk, &mut text, sink);
        }
    }
    Err(Failure::Input(io::Error::other("no end")))
}

// Walks by way of the whole blocks of `input`, or of a block of its own where it has none.
fn walk_blocks<K: Walk, R: Read, W: Write>(
    reader: &mut R,
    input: &mut [u8],
    sink: &mut Sink<'_, W>,
) -> Result<(), Failure>
    ensures same_buffer { sink.new.buf.ghost_name ≡ sink.old.buf.ghost_name }
    ensures stays_failed { sink.old.held ≡ None → sink.new.held ≡ None }
    ensures all_taken { OnOk result (IsSome sink.new.held) }
    ensures walks { OnOk result (Walks K.walker (R.remaining reader.old)
        (sent (W.contents sink.old.writer) sink.old.buf.now sink.old.held)
        (sent (W.contents sink.new.writer) sink.new.buf.now sink.new.held)) }
{
    let blocks = input.len() / BLOCK;
    if blocks == 0 {
        return walk_input::<K, R, W>(reader, &mut [0u8; BLOCK], sink);
    }
    walk_input::<K, R, W>(reader, &mut input[..blocks * BLOCK], sink)
}

// Walks the run file that is read, by way of `input` where that has room for a block, and writes the text; tells what has stopped it. Answers whether the
// whole text was written. Nothing stays held.
pub fn run<K: Walk, R: Read, W: Write>(
    err: &impl Eprint,
    program: &str,
    reader: &mut R,
    sink: &mut Sink<'_, W>,
    input: &mut [u8],
) -> bool
    ensures same_buffer { sink.new.buf.ghost_name ≡ sink.old.buf.ghost_name }
    ensures after_failure { sink.old.held ≡ None → result ≡ false }
    ensures none_held { MatchOption sink.new.held (result ≡ false) (λ used. used ≡ 0) }
    ensures walks { result ≡ true → Walks K.walker (R.remaining reader.old)
        (sent (W.contents sink.old.writer) sink.old.buf.now sink.old.held) (W.contents sink.new.writer) }
{
    let walked = walk_blocks::<K, R, W>(reader, input, sink);
    let is_whole = walked.is_ok();
    sink.end(err, program, walked) && is_whole
}
