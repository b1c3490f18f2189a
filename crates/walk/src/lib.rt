// A run file walked from block to block and from action to action: the text that comes of it, whatever is done with each block and each action.
// `player`, `listing` and `summing` are the walks; here is what they have in common.
#![tactic(auto)]

ghost use Rattle.std.specs.Prelude.{◌≡◌, ◌≤◌, length};
ghost use Rattle.transcript.specs.Lines.{done_line};
ghost use Rattle.transcript.specs.Room.{put, Puts};
ghost use Rattle.files.specs.declared.order.Stage.TheVariants.{Unopened};
ghost use Rattle.files.specs.Order.{is_ended};
ghost use Rattle.walk.specs.Walk.{Walker, nodes_once};
ghost use Rattle.walk.specs.Feeding.{Walking, is_unopened, found_in, found_text, found_fits, feed_of, finish_of};

use charts::Refusal;
use files::order;
use files::order::Stage;
use runfile::BlockHead;

// A walk over a file, between two pieces of it. What it prints and what it is after a piece is said by its `walker`, the turns of specs/Walk.antt,
// and by `seen`, the state that it is in and how far the file has been read.
pub trait Walk: Copy {
    ghost State: { Type 0 };

    ghost walker: { Walker State };

    ghost seen: { Self → Walking State };

    // The walk before a file.
    fn start() -> Self
        ensures { (seen result).stage ≡ Unopened };

    // Takes a piece of a file. Its text stands at the start of `out`.
    fn feed(self, piece: &[u8], out: &mut [u8; 2048]) -> Fed<Self>
        ensures end_bound { result.end ≤ 2048 }
        ensures end_value { result.end ≡ length (feed_of walker (seen self) piece.now).text }
        ensures out_after { out.new ≡ put out.old 0 (feed_of walker (seen self) piece.now).text }
        ensures walk_value { seen result.walk ≡ (feed_of walker (seen self) piece.now).after }
        ensures ended_value { result.ended ≡ is_ended (seen result.walk).stage };

    // The file's end. Its text stands at the start of `out`; the answer is its length.
    fn finish(self, out: &mut [u8; 2048]) -> usize
        ensures upper_bound { result ≤ 2048 }
        ensures value { result ≡ length (finish_of walker.done (seen self).stage) }
        ensures out_after { out.new ≡ put out.old 0 (finish_of walker.done (seen self).stage) };
}

// What a piece gives: the walk after it, how many bytes of text it put, and whether a refusal has ended the walk.
#[derive(Clone, Copy)]
pub struct Fed<W> {
    pub walk: W,
    pub end: usize,
    pub ended: bool,
}

// What a block's actions give: the state after them, the place after their text, and whether one of them was refused.
#[derive(Clone, Copy)]
pub struct Part<S> {
    pub state: S,
    pub end: usize,
    pub ended: bool,
}

// What is found in a piece of a file: the next block's head, or nothing, because it is refused or comes after a refusal; and how many bytes of text were put.
#[derive(Clone, Copy)]
pub struct Entered {
    pub found: Option<BlockHead>,
    pub end: usize,
}

// "`nodes` is printed once block 0 is accepted": at the start of `out`.
pub fn put_nodes_once(stage: Stage, n: u8, out: &mut [u8; 2048]) -> usize
    ensures upper_bound { result ≤ 64 }
    ensures puts { Puts out.old 0 (nodes_once (is_unopened stage) n) result out.new }
{
    match stage {
        Stage::Unopened => transcript::put_nodes(out, 0, n),
        _ => 0,
    }
}

// Looks at a piece of a file, m being block 0's n, and puts its refusal, if it is refused, at the start of `out`.
#[tactic(auto, unfolding(crate::specs::Feeding::found_in, crate::specs::Feeding::found_text))]
pub fn enter(stage: Stage, m: u8, piece: &[u8], out: &mut [u8; 2048]) -> Entered
    ensures end_bound { result.end ≤ 64 }
    ensures found_value { result.found ≡ found_in stage m piece.now }
    ensures found_fits { found_fits piece.now result.found }
    ensures puts { Puts out.old 0 (found_text stage m piece.now) result.end out.new }
{
    if order::is_ended(stage) {
        return Entered {
            found: None,
            end: 0,
        };
    }
    match order::look(stage, m, piece) {
        Ok(head) => Entered {
            found: Some(head),
            end: 0,
        },
        Err(refusal) => Entered {
            found: None,
            end: transcript::put_refused(out, 0, order::accepted_by(stage), refusal.number()),
        },
    }
}

// The file's end: `done` and the count of all actions, or the refusal of a file with no bytes. Its text stands at the start of `out`; the answer is its length.
#[tactic(auto, unfolding(crate::specs::Feeding::finish_of))]
pub fn put_end(stage: Stage, out: &mut [u8; 2048]) -> usize
    ensures upper_bound { result ≤ 2048 }
    ensures value { result ≡ length (finish_of done_line stage) }
    ensures out_after { out.new ≡ put out.old 0 (finish_of done_line stage) }
{
    match stage {
        Stage::Unopened => transcript::put_refused(out, 0, 0, Refusal::WrongLength.number()),
        Stage::After { .. } => transcript::put_done(out, 0, order::accepted_by(stage)),
        Stage::Ended => 0,
    }
}
