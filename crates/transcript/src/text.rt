// Figures and reports put into a buffer from a place on. Each function answers the place after what it put.
// The pieces know their place and their room, since `put_line` is the hot path of `play`: over writer.rt, which looks for room at each piece, `play` took 7 % more instructions and time.
ghost use Rattle.std.specs.Prelude.{◌≡◌, [], ◌∷◌, ◌++◌, ◌+◌, ◌/◌, ◌%◌, ◌≤◌, ◌<◌, length};
ghost use Rattle.transcript.specs.Text.{digit, decimal};
ghost use Rattle.transcript.specs.Lines.{line, first_word, name_word, said, flag};
ghost use Rattle.transcript.specs.Room.{Puts};

use charts::{Head, Reading, Report, words};

pub(crate) fn put_byte(buf: &mut [u8], at: usize, b: u8) -> usize
    requires { at < length buf.old }
    ensures { Puts buf.old at (b ∷ []) result buf.new }
{
    buf[at] = b;
    at + 1
}

pub(crate) fn put_word(buf: &mut [u8], at: usize, w: &[u8]) -> usize
    requires { at + length w.now ≤ length buf.old }
    ensures { Puts buf.old at w.now result buf.new }
{
    buf[at..at + w.len()].copy_from_slice(w);
    at + w.len()
}

// The two digits of a number below 100, with a 0 before a single one.
fn put_pair(buf: &mut [u8], at: usize, x: u8) -> usize
    requires x_bound { x < 100 }
    requires at_in_bounds { at + 2 ≤ length buf.old }
    ensures { Puts buf.old at (digit (x / 10) ++ digit (x % 10)) result buf.new }
{
    let a = put_byte(buf, at, 48 + x / 10);
    put_byte(buf, a, 48 + x % 10)
}

// A number below 100: most figures are, and this is quicker than a call for each digit.
fn put_small(buf: &mut [u8], at: usize, x: u8) -> usize
    requires x_bound { x < 100 }
    requires x_in_bounds { at + length (decimal x) ≤ length buf.old }
    ensures { Puts buf.old at (decimal x) result buf.new }
{
    if x < 10 {
        return put_byte(buf, at, 48 + x);
    }
    put_pair(buf, at, x)
}

// A number below 10,000.
fn put_four(buf: &mut [u8], at: usize, x: u64) -> usize
    requires x_bound { x < 10000 }
    requires x_in_bounds { at + length (decimal x) ≤ length buf.old }
    ensures { Puts buf.old at (decimal x) result buf.new }
{
    if x < 100 {
        return put_small(buf, at, x as u8);
    }
    let last = put_small(buf, at, (x / 100) as u8);
    put_pair(buf, last, (x % 100) as u8)
}

// Four digits a call: most figures take one or two.
fn put_decimal(buf: &mut [u8], at: usize, x: u64) -> usize
    requires { at + length (decimal x) ≤ length buf.old }
    ensures { Puts buf.old at (decimal x) result buf.new }
{
    if x < 10000 {
        return put_four(buf, at, x);
    }
    let last = put_decimal(buf, at, x / 10000);
    let rest = x % 10000;
    let next = put_pair(buf, last, (rest / 100) as u8);
    put_pair(buf, next, (rest % 100) as u8)
}

pub(crate) fn put_u8(buf: &mut [u8], at: usize, x: u8) -> usize
    requires { at + 3 ≤ length buf.old }
    ensures upper_bound { result ≤ at + 3 }
    ensures puts { Puts buf.old at (decimal x) result buf.new }
{
    if x < 100 {
        return put_small(buf, at, x);
    }
    put_decimal(buf, at, x as u64)
}

pub(crate) fn put_u32(buf: &mut [u8], at: usize, x: u32) -> usize
    requires { at + 10 ≤ length buf.old }
    ensures upper_bound { result ≤ at + 10 }
    ensures puts { Puts buf.old at (decimal x) result buf.new }
{
    put_decimal(buf, at, x as u64)
}

pub(crate) fn put_u64(buf: &mut [u8], at: usize, x: u64) -> usize
    requires { at + 20 ≤ length buf.old }
    ensures upper_bound { result ≤ at + 20 }
    ensures puts { Puts buf.old at (decimal x) result buf.new }
{
    put_decimal(buf, at, x)
}

// "node and report" of a report that is a word.
fn put_node(buf: &mut [u8], at: usize, node: u8, word: &[u8]) -> usize
    requires { at + 3 + length word.now ≤ length buf.old }
    ensures upper_bound { result ≤ at + 3 + length word.now }
    ensures puts { Puts buf.old at (decimal node ++ word.now) result buf.new }
{
    let a = put_u8(buf, at, node);
    put_word(buf, a, word)
}

// The label that ends a report, after a space, and the end of the line.
fn put_label(buf: &mut [u8], at: usize, label: u8) -> usize
    requires { at + 5 ≤ length buf.old }
    ensures upper_bound { result ≤ at + 5 }
    ensures puts { Puts buf.old at (32 ∷ line (decimal label ∷ [])) result buf.new }
{
    let a = put_byte(buf, at, b' ');
    let b = put_u8(buf, a, label);
    put_byte(buf, b, b'\n')
}

// The name of the mode that a drop ends with, and the end of the line.
fn put_name(buf: &mut [u8], at: usize, left: Reading) -> usize
    requires { at + 10 ≤ length buf.old }
    ensures upper_bound { result ≤ at + 10 }
    ensures puts { Puts buf.old at (line (name_word left ∷ [])) result buf.new }
{
    match left {
        Reading::Opened => put_word(buf, at, b"Opened\n"),
        Reading::Addressed => put_word(buf, at, b"Addressed\n"),
        Reading::HeadOwn => put_word(buf, at, b"HeadOwn\n"),
        Reading::HeadAll => put_word(buf, at, b"HeadAll\n"),
        Reading::BodyOwn => put_word(buf, at, b"BodyOwn\n"),
        Reading::BodyAll => put_word(buf, at, b"BodyAll\n"),
        Reading::TailOwn => put_word(buf, at, b"TailOwn\n"),
        Reading::TailAll => put_word(buf, at, b"TailAll\n"),
    }
}

// A header and a datum.
pub(crate) fn put_fields(buf: &mut [u8], at: usize, header: u32, datum: u32) -> usize
    requires { at + 21 ≤ length buf.old }
    ensures upper_bound { result ≤ at + 21 }
    ensures puts { Puts buf.old at (decimal header ++ (32 ∷ decimal datum)) result buf.new }
{
    let a = put_u32(buf, at, header);
    let b = put_byte(buf, a, b' ');
    put_u32(buf, b, datum)
}

// "node and report" of a report with header and data.
fn put_packet(buf: &mut [u8], at: usize, node: u8, word: &[u8], head: Head, datum: u32) -> usize
    requires { at + 29 + length word.now ≤ length buf.old }
    ensures upper_bound { result ≤ at + 29 + length word.now }
    ensures puts { Puts buf.old at (decimal node ++ (word.now ++ line (decimal head.header ∷ decimal datum ∷ decimal head.label ∷ []))) result buf.new }
{
    let a = put_node(buf, at, node, word);
    let b = put_fields(buf, a, head.header, datum);
    put_label(buf, b, head.label)
}

// "`-` or node and report", and the end of the line.
pub(crate) fn put_report(buf: &mut [u8], at: usize, report: Report) -> usize
    requires { at + 36 ≤ length buf.old }
    ensures upper_bound { result ≤ at + 36 }
    ensures puts { Puts buf.old at (line (said report)) result buf.new }
{
    match report {
        Report::Silent => put_word(buf, at, b"-\n"),
        Report::Won(i) => put_node(buf, at, i, b" won\n"),
        Report::Lost(i) => put_node(buf, at, i, b" lost\n"),
        Report::Sent(i, label) => {
            let b = put_node(buf, at, i, b" sent");
            put_label(buf, b, label)
        }
        Report::Acked(i, a, label) => {
            let b = put_node(buf, at, i, b" ack ");
            let c = put_u8(buf, b, a);
            put_label(buf, c, label)
        }
        Report::Miss(i, label) => {
            let b = put_node(buf, at, i, b" miss");
            put_label(buf, b, label)
        }
        Report::Drop(i, left) => {
            let b = put_node(buf, at, i, b" drop ");
            put_name(buf, b, left)
        }
        Report::Good(i, h, d) => put_packet(buf, at, i, b" good ", h, d),
        Report::Dcrc(i, h) => {
            let b = put_node(buf, at, i, b" dcrc ");
            let c = put_u32(buf, b, h.header);
            put_label(buf, c, h.label)
        }
        Report::Broad(i, h, d) => put_packet(buf, at, i, b" broad ", h, d),
    }
}

// The first word of a report by its number, `-` for none. It stays a number: `put_cell` answers every byte of an entry.
pub(crate) fn first_word(word: u8) -> &'static [u8]
    ensures { result.now ≡ first_word word }
{
    match word {
        words::WON => b"won",
        words::LOST => b"lost",
        words::SENT => b"sent",
        words::ACK => b"ack",
        words::MISS => b"miss",
        words::DROP => b"drop",
        words::GOOD => b"good",
        words::DCRC => b"dcrc",
        words::BROAD => b"broad",
        _ => b"-",
    }
}

// 1 for a pending mark, else 0.
pub(crate) fn flag(set: bool) -> u8
    ensures { result ≡ flag set }
{
    if set { b'1' } else { b'0' }
}
