// The node that a record is about.
ghost use Rattle.std.specs.Prelude.{◌≡◌, ◌<◌};
ghost use Rattle.charts.specs.Actions.{target};
ghost use Rattle.charts.specs.View.{mark};
ghost use Rattle.deciding.specs.Plans.{aimed, Ready};

use charts::{Move, Phase, Refusal};
use deciding::{marks, phases};

// The node that an action is about.
fn target(n: u8, phase: Phase, pending: &[bool; 63], m: Move) -> u8
    ensures { result ≡ target n phase (mark pending.now) m }
{
    match m {
        Move::Request { node: i, .. } | Move::Respond { node: i, .. } => i,
        Move::Arbitrate(i) | Move::Clock(i) | Move::Ask(i) | Move::Decide(i) => i,
        Move::Carry(_) | Move::GapNext => phases::next_of(phase),
        Move::Grant => marks::lowest(pending, n).unwrap_or(0),
        Move::Reset => 0,
    }
}

// The node that a record is about; a refused one is about none, and node 0's cell stays.
pub(crate) fn aim(n: u8, phase: Phase, pending: &[bool; 63], d: Result<Move, Refusal>) -> u8
    requires { Ready n phase (mark pending.now) d }
    ensures value { result ≡ aimed n phase (mark pending.now) d }
    ensures upper_bound { result < 63 }
{
    match d {
        Ok(m) => target(n, phase, pending, m),
        Err(_) => 0,
    }
}
