// The settings of a load trial in plain words on standard input; its run file on standard output, its tally on standard error.
#![tactic(auto)]

use notation::Text;
use settings::Settings;
use std::io::{Read, Write};
use stream::Failure;

// Makes the trial: writes its run file, and then the tally. The settings are not refused, since the lines that would be are faults of the text.
fn make<W: Write, E: Write>(err: &mut E, writer: &mut W, s: Settings) -> Result<(), Failure> {
    let mut file = [0u8; 1082880];
    let Ok((size, tally)) = trials::attempt(s.n, s.users, s.actions, &mut file) else {
        return Ok(());
    };
    let size = size.min(file.len());
    writer.write_all(&file[..size]).map_err(Failure::Output)?;
    let mut text = [0u8; 256];
    let end = tallying::put_tally(&mut text, 0, tally);
    let _ = err.write_all(&text[..end]);
    Ok(())
}

// Reads the settings, and makes the trial or says what is wrong.
fn run<R: Read + Drop, W: Write, E: Write>(
    err: &mut E,
    reader: R,
    writer: &mut W,
) -> Result<(), Failure> {
    // The longest line is 255 bytes; a byte more shows that a line is longer.
    let mut line = [0u8; 256];
    let read = texts::read_text(
        reader,
        &mut line,
        settings::start(),
        |s, line| {
            *s = settings::feed(*s, line);
            Ok(())
        },
        |s: &Settings| s.fault.is_some(),
    )?;
    let s = settings::finish(read.taker);
    match s.fault {
        Some(fault) => {
            texts::report(err, Text::Settings, s.n, s.line, fault, &line[..read.len]);
            Ok(())
        }
        None => make(err, writer, s),
    }
}

fn main(rt: HostRuntime) {
    let mut err = rt.stderr();
    if let Err(failure) = run(&mut err, rt.stdin(), &mut rt.stdout()) {
        failure.tell(&err, "trial");
    }
}
