// The deciding functions: what an action comes to for the one node that it is about, made of the few values that it looks at. The bus's record is not handed in.
#![tactic(auto)]

ghost use Rattle.std.specs.Prelude.{◌≡◌};
ghost use Rattle.charts.specs.View.{mark};
ghost use Rattle.link.specs.Reading.{heard_by};
ghost use Rattle.deciding.specs.Plans.{tried};

use crate::plans::Plan;
use charts::{Cell, Move, Phase, Refusal};

mod actions;
pub mod cells;
mod decide;
pub mod marks;
pub mod phases;
pub mod plans;

// What an action looks at beside the cell of the node that it is about: how many nodes there are, the bus's phase and its own mark, whether some node is Asked,
// and the marks of all nodes, which are lent.
#[derive(Clone, Copy)]
pub struct Scene<'a> {
    pub n: u8,
    pub phase: Phase,
    pub concatenated: bool,
    pub asked: bool,
    pub won: &'a [bool; 63],
    pub pending: &'a [bool; 63],
    pub holder: &'a [bool; 63],
}

// What `bus::advance` makes of node i, whose cell is c, by a table of the reception chart. (bus/proofs/InPlace.antt: carrying the plan out on the arrays, with the
// chart's own table, is `advance`.) A player takes the table once, and lends it with each action. What refuses a record, a `Refusal` or a number, is handed on.
pub fn plan<E>(
    table: &[u16; 350],
    scene: Scene,
    i: u8,
    c: Cell,
    d: Result<Move, E>,
) -> Result<Result<Plan, Refusal>, E>
    ensures { result ≡ tried (heard_by table.now) scene.entry.n scene.entry.phase scene.entry.concatenated scene.entry.asked i c (mark scene.entry.won.now) (mark scene.entry.pending.now) (mark scene.entry.holder.now) d }
{
    match d {
        Ok(m) => Ok(decide::decide(table, scene, i, c, m)),
        Err(refused) => Err(refused),
    }
}
