// A question in plain words on standard input, a run and then a line `find`; its answer on standard output.
#![tactic(auto)]

use finder::Finder;
use notation::Text;
use std::io::{Read, Write};
use stream::Failure;

fn answer<W: Write>(writer: &mut W, f: Finder) -> Result<(), Failure> {
    let mut text = [0u8; 384];
    let found = routes::find(f.bus, f.question, f.depth).map_err(|refusal| refusal.number());
    let end = answering::put_answer(&mut text, 0, found);
    writer.write_all(&text[..end]).map_err(Failure::Output)
}

// Reads the question, and answers it or says what is wrong.
fn run<R: Read + Drop, W: Write, E: Write>(
    err: &mut E,
    reader: R,
    writer: &mut W,
) -> Result<(), Failure> {
    // The longest line is 255 bytes; a byte more shows that a line is longer.
    let mut line = [0u8; 256];
    let read = texts::read_text(
        reader,
        &mut line,
        finder::start(),
        |f, line| {
            *f = finder::feed(*f, line);
            Ok(())
        },
        |f: &Finder| f.fault.is_some(),
    )?;
    let f = finder::finish(read.taker);
    match f.fault {
        Some(fault) => {
            texts::report(
                err,
                Text::Question,
                f.bus.n,
                f.line,
                fault,
                &line[..read.len],
            );
            Ok(())
        }
        None => answer(writer, f),
    }
}

fn main(rt: HostRuntime) {
    let mut err = rt.stderr();
    if let Err(failure) = run(&mut err, rt.stdin(), &mut rt.stdout()) {
        failure.tell(&err, "find");
    }
}
