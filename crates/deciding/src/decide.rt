// The plan of any action.
ghost use Rattle.std.specs.Prelude.{◌≡◌};
ghost use Rattle.charts.specs.Actions.{outcome, waits_for_asked};
ghost use Rattle.charts.specs.View.{mark};
ghost use Rattle.link.specs.Reading.{heard_by};
ghost use Rattle.deciding.specs.Plans.{settled, is_ready, attempted};

use crate::plans::Plan;
use crate::{Scene, actions, phases};
use charts::{Cell, Move, Phase, Refusal};

// The plan of an action about node i, whose cell is c; the table says what a node does with a signal.
#[tactic(auto, unfolding(charts::specs::Actions::outcome))]
fn play(table: &[u16; 350], scene: Scene, i: u8, c: Cell, m: Move) -> Result<Plan, Refusal>
    ensures { result ≡ settled (outcome (heard_by table.now) scene.entry.n scene.entry.phase scene.entry.concatenated i c (mark scene.entry.won.now) (mark scene.entry.pending.now) (mark scene.entry.holder.now) m) }
{
    match m {
        Move::Request { packet, .. } => actions::request(scene.phase, c, packet),
        Move::Arbitrate(_) | Move::Decide(_) => actions::decide(scene.phase, i, c, m),
        Move::Respond { ack, hold, .. } => actions::respond(
            scene.phase,
            scene.concatenated,
            c,
            ack,
            hold,
        ),
        Move::Clock(_) => actions::clock(scene, i, c),
        Move::Carry(_) | Move::GapNext => actions::hear(table, scene, c, m),
        Move::Grant => actions::grant(scene, i, c),
        Move::Reset => actions::reset(scene, c),
        Move::Ask(_) => actions::ask(scene.phase, c),
    }
}

// Kinds 4 to 10, which wait until every node that asked is decided.
fn waits_for_asked(m: Move) -> bool
    ensures { result ≡ waits_for_asked m }
{
    matches!(
        m,
        Move::Clock(_) | Move::Carry(_) | Move::Grant | Move::GapNext | Move::Reset
    )
}

// What passes 12 and concerns node i and the next receiver: less is not planned.
fn is_ready(n: u8, phase: Phase, i: u8) -> bool
    ensures { result ≡ is_ready n phase i }
{
    n < 64 && phases::next_of(phase) < 63 && i < 63
}

// The plan of an action about any node i, whose cell is c, on what passes 12.
pub(crate) fn decide(
    table: &[u16; 350],
    scene: Scene,
    i: u8,
    c: Cell,
    m: Move,
) -> Result<Plan, Refusal>
    ensures { result ≡ attempted (heard_by table.now) scene.entry.n scene.entry.phase scene.entry.concatenated scene.entry.asked i c (mark scene.entry.won.now) (mark scene.entry.pending.now) (mark scene.entry.holder.now) m }
{
    if !is_ready(scene.n, scene.phase, i) {
        return Err(Refusal::NotValid);
    }
    if scene.asked && waits_for_asked(m) {
        return Err(Refusal::NotOpen);
    }
    play(table, scene, i, c, m)
}
