// The order of a file's blocks: how far a file has been read, and its next block looked at by 8, 9, 1, 10, 11.
ghost use Rattle.std.specs.Prelude.{◌≡◌, ◌≤◌};
ghost use Rattle.runfile.specs.Block.{block_fits};
ghost use Rattle.files.specs.Order.{is_ended, accepted_by, is_next, look_of, stage_after};

use charts::Refusal;
use runfile::{BlockHead, count_fits, read_head};

const FULL: u8 = 31;

const LAST_NUMBER: u32 = 4294967295;

// How far a file has been read: before block 0, after a block (its number and its count), or to its end by a refusal.
#[derive(Clone, Copy)]
pub enum Stage {
    Unopened,
    After { number: u32, count: u8 },
    Ended,
}

pub fn is_ended(stage: Stage) -> bool
    ensures { result ≡ is_ended stage }
{
    matches!(stage, Stage::Ended)
}

// How many actions were accepted: every block before the last one is full.
pub fn accepted_by(stage: Stage) -> u64
    ensures upper_bound { result ≤ 133143986400 }
    ensures value { result ≡ accepted_by stage }
{
    match stage {
        Stage::After { number, count } => 31 * number as u64 + count as u64,
        _ => 0,
    }
}

// Whether 10 lets a block with this number and n be the next one, m being block 0's n.
#[tactic(auto, unfolding(crate::specs::Order::is_next))]
pub fn is_next(stage: Stage, m: u8, number: u32, n: u8) -> bool
    ensures { result ≡ is_next stage m number n }
{
    match stage {
        Stage::Unopened => number == 0,
        Stage::After {
            number: before,
            count,
        } => before < LAST_NUMBER && number == before + 1 && n == m && count == FULL,
        Stage::Ended => false,
    }
}

// A piece of a file looked at by 8, 9, 1, 10, 11; m is block 0's n.
#[tactic(auto, unfolding(crate::specs::Order::look_of))]
pub fn look(stage: Stage, m: u8, piece: &[u8]) -> Result<BlockHead, Refusal>
    ensures value { result ≡ look_of stage m piece.now }
    ensures block_fits { block_fits piece.now result }
{
    let head = read_head(piece)?;
    if !is_next(stage, m, head.number, head.n) {
        return Err(Refusal::WrongOrder);
    }
    if !count_fits(piece) {
        return Err(Refusal::WrongCount);
    }
    Ok(head)
}

// The stage after a block that was taken; a refused action in it has ended the file.
pub fn stage_after(ended: bool, number: u32, count: u8) -> Stage
    ensures { result ≡ stage_after ended number count }
{
    if ended {
        Stage::Ended
    } else {
        Stage::After { number, count }
    }
}
