// How many sequences of signals leave a node in which mode: for each length a row of 25 counts, by the reception chart's table, and their text.
#![tactic(auto)]

ghost use Rattle.std.specs.Prelude.{◌≡◌, ◌^◌, ◌≤◌, ◌<◌, length};
ghost use Rattle.charts.specs.Sequences.{next_row};
ghost use Rattle.link.specs.Reading.{cells};
ghost use Rattle.transcript.specs.Room.{put};
ghost use Rattle.counting.specs.Rows.{place_at, sum_of, row_made, counts_text};

// 25 modes by 14 classes of signals.
const CELLS: usize = 350;

const CLASSES: usize = 14;

const REST: usize = 0;

// Of 17 classes there are more sequences than 64 bits can count.
const LONGEST: u8 = 16;

// Where the i-th cell of the table leads.
fn place_at(table: &[u16; 350], i: usize) -> usize
    requires table_value { table.now ≡ cells }
    requires i_bound { i < 350 }
    ensures upper_bound { result < 25 }
    ensures value { result ≡ place_at i }
{
    link::table::place_in(table[i]) as usize
}

// The row of the sequences that are longer by one class: each cell of the table takes the count of its own mode to the next one.
fn next_row(row: [u64; 25], table: &[u16; 350]) -> [u64; 25]
    requires table_value { table.now ≡ cells }
    requires row_bound { sum_of row ≤ 14 ^ 15 }
    ensures { result ≡ next_row row }
{
    let mut next: [u64; 25] = [0u64; 25];
    for i in 0..CELLS {
        next[place_at(table, i)] += row[i / CLASSES];
    }
    next
}

// The row of sequences of k classes. Past 16 none is made: the answer is 25 zeros.
pub fn row(k: u8) -> [u64; 25]
    ensures { result ≡ row_made k }
{
    let mut row: [u64; 25] = [0u64; 25];
    if LONGEST < k {
        return row;
    }
    row[REST] = 1;
    let table = link::table::table();
    for _length in 0..k {
        row = next_row(row, &table);
    }
    row
}

// Puts the rows of 0 to 16 classes at the start of `out`, a line for each. The answer is the length of the text.
pub fn put_counts(out: &mut [u8; 16384]) -> usize
    ensures upper_bound { result ≤ 16384 }
    ensures value { result ≡ length counts_text }
    ensures out_after { out.new ≡ put out.old 0 counts_text }
{
    let mut end: usize = 0;
    for k in 0..LONGEST + 1 {
        let row = row(k);
        end = figures::put_figures(out, end, k as u64, &row);
    }
    end
}
