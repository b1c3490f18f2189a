// One mark of all nodes: looked at, and cleared. Nodes from n on are neither read nor changed.
ghost use Rattle.std.specs.Prelude.{◌≡◌, ◌&&◌, ◌≤◌, ltb, length};
ghost use Rattle.charts.specs.State.{some, others, upd};
ghost use Rattle.charts.specs.View.{mark};
ghost use Rattle.deciding.specs.Marks.{unmarked, first_marked};

// Whether a node other than i is marked.
pub(crate) fn others(marks: &[bool; 63], i: u8, n: u8) -> bool
    ensures { result ≡ others (mark marks.now) i n }
{
    (0..n.min(63)).any(|k| k != i && marks[k as usize])
}

// Whether a node is marked: no node is 63.
pub(crate) fn some(marks: &[bool; 63], n: u8) -> bool
    ensures { result ≡ some (mark marks.now) n }
{
    others(marks, 63, n)
}

// Whether a node is marked once the mark of node i is set to `own`.
#[tactic(auto, using(crate::proofs::MarkLaws::some_own))]
pub(crate) fn some_with(marks: &[bool; 63], i: u8, own: bool, n: u8) -> bool
    ensures { result ≡ some (upd (mark marks.now) i own) n }
{
    own && i < n || others(marks, i, n)
}

// The lowest marked node, if there is one.
pub fn lowest(marks: &[bool; 63], n: u8) -> Option<u8>
    ensures { result ≡ first_marked (mark marks.now) n }
{
    (0..n.min(63)).find(|k| marks[*k as usize])
}

// Clears the marks of all nodes if it is asked; a bus has at most 63 of them.
pub fn clear(marks: &mut [bool; 63], asked: bool, n: u8)
    ensures marks_len_unchanged { length marks.new ≡ length marks.old }
    ensures marks_after { mark marks.new ≡ unmarked (asked && ltb n 64) n (mark marks.old) }
{
    if asked && n < 64 {
        marks[..n as usize].fill(false);
    }
}
