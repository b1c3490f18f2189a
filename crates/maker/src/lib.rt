// The reception chart's table as text, from the rules.
#![tactic(auto)]

ghost use Rattle.std.specs.Prelude.{◌≡◌, ◌≤◌, length};
ghost use Rattle.transcript.specs.Room.{put};
ghost use Rattle.maker.specs.Printed.{byte_after, table_text};

// 25 modes by 14 classes of signals.
const CELLS: u16 = 350;

const CLASSES: u16 = 14;

// What follows a cell: a newline after the last of its line, else a space.
fn byte_after(class: u16) -> u8
    ensures { result ≡ byte_after class }
{
    match class {
        13 => b'\n',
        _ => b' ',
    }
}

// Puts the table at the start of `out`. The answer is its length.
pub fn put_table(out: &mut [u8; 8192]) -> usize
    ensures upper_bound { result ≤ 8192 }
    ensures value { result ≡ length table_text }
    ensures out_after { out.new ≡ put out.old 0 table_text }
{
    let mut end: usize = 0;
    for k in 0..CELLS {
        let class = k % CLASSES;
        let cell = link::rules::rule((k / CLASSES) as u8, class as u8);
        end = transcript::put_cell(out, end, cell, byte_after(class));
    }
    end
}
