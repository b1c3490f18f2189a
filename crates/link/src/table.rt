// The reception chart as one table of 25 × 14 cells: a constant, and its reading.
// A cell is one number: the next mode's place, 32 times the number of the report's word, and 512 for a pending mark. tools/cells.py prints the constant.
ghost use Rattle.std.specs.Prelude.{◌≡◌, ◌<◌, get_or};
ghost use Rattle.link.specs.Reading.{place_in, word_in, pends_in, index_of, cells};

const CELLS: [u16; 350] = [
    // Rest
    5, 0, 0, 0, 0, 0, 0, 0, 0, 0, 0, 0, 0, 0,
    // AwaitAck
    2, 175, 1, 160, 175, 175, 175, 175, 175, 175, 175, 175, 175, 175,
    // AckBody
    175, 175, 175, 160, 4, 4, 4, 4, 4, 4, 4, 4, 3, 4,
    // AckEnd with a good Ack
    175, 143, 151, 160, 175, 175, 175, 175, 175, 175, 175, 175, 175, 175,
    // AckEnd with none
    175, 175, 175, 160, 175, 175, 175, 175, 175, 175, 175, 175, 175, 175,
    // Opened
    207, 207, 207, 0, 6, 6, 6, 6, 6, 6, 6, 6, 6, 6,
    // Addressed
    207, 207, 207, 0, 207, 519, 8, 15, 207, 207, 207, 207, 207, 207,
    // HeadOwn
    208, 208, 208, 208, 208, 208, 208, 208, 9, 208, 208, 208, 208, 208,
    // HeadAll
    207, 207, 207, 0, 207, 207, 207, 207, 10, 207, 207, 207, 207, 207,
    // BodyOwn
    208, 208, 208, 208, 208, 208, 208, 208, 208, 208, 11, 12, 208, 208,
    // BodyAll
    207, 207, 207, 0, 207, 207, 207, 207, 207, 207, 13, 14, 207, 207,
    // TailOwn with good data
    208, 242, 242, 208, 208, 208, 208, 208, 208, 208, 208, 208, 208, 208,
    // TailOwn with bad data
    208, 274, 274, 208, 208, 208, 208, 208, 208, 208, 208, 208, 208, 208,
    // TailAll with good data
    207, 288, 288, 0, 207, 207, 207, 207, 207, 207, 207, 207, 207, 207,
    // TailAll with bad data
    207, 192, 192, 0, 207, 207, 207, 207, 207, 207, 207, 207, 207, 207,
    // Wait
    15, 15, 15, 0, 15, 15, 15, 15, 15, 15, 15, 15, 15, 15,
    // Owed
    16, 16, 16, 16, 16, 16, 16, 16, 16, 16, 16, 16, 16, 16,
    // Sending
    17, 17, 17, 17, 17, 17, 17, 17, 17, 17, 17, 17, 17, 17,
    // Told
    18, 18, 18, 18, 18, 18, 18, 18, 18, 18, 18, 18, 18, 18,
    // Answering
    19, 19, 19, 19, 19, 19, 19, 19, 19, 19, 19, 19, 19, 19,
    // Acking
    20, 20, 20, 20, 20, 20, 20, 20, 20, 20, 20, 20, 20, 20,
    // Holding
    21, 21, 21, 21, 21, 21, 21, 21, 21, 21, 21, 21, 21, 21,
    // Spurious
    22, 22, 22, 22, 22, 22, 22, 22, 22, 22, 22, 22, 22, 22,
    // Listening
    5, 15, 23, 0, 15, 15, 15, 15, 15, 15, 15, 15, 15, 15,
    // Asked
    24, 24, 24, 24, 24, 24, 24, 24, 24, 24, 24, 24, 24, 24,
];

// The table. Whoever reads it often takes it once and lends it: the constant is built anew wherever it is named.
pub fn table() -> [u16; 350]
    ensures { result ≡ cells }
{
    CELLS
}

// The cell of a place and a class.
pub(crate) fn cell_at(table: &[u16; 350], place: u8, class: u8) -> u16
    requires place_bound { place < 25 }
    requires class_bound { class < 14 }
    ensures { result ≡ get_or table.now (index_of place class) 0 }
{
    table[14 * place as usize + class as usize]
}

// The next mode's place, as a cell names it.
pub fn place_in(cell: u16) -> u8
    ensures { result ≡ place_in cell }
{
    (cell % 32) as u8
}

pub(crate) fn word_in(cell: u16) -> u8
    ensures { result ≡ word_in cell }
{
    (cell / 32 % 16) as u8
}

pub(crate) fn pends_in(cell: u16) -> bool
    ensures { result ≡ pends_in cell }
{
    512 <= cell
}
