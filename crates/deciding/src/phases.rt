// The phases of the bus.
ghost use Rattle.std.specs.Prelude.{◌≡◌};
ghost use Rattle.charts.specs.State.{is_idle, is_busy, is_granting};
ghost use Rattle.charts.specs.Actions.{next_of};

use charts::Phase;

pub fn is_idle(phase: Phase) -> bool
    ensures { result ≡ is_idle phase }
{
    matches!(phase, Phase::Idle)
}

pub(crate) fn is_busy(phase: Phase) -> bool
    ensures { result ≡ is_busy phase }
{
    matches!(phase, Phase::Busy)
}

pub(crate) fn is_granting(phase: Phase) -> bool
    ensures { result ≡ is_granting phase }
{
    matches!(phase, Phase::Granting)
}

// The node that gets the next signal or the next Gap, else 0.
pub fn next_of(phase: Phase) -> u8
    ensures { result ≡ next_of phase }
{
    match phase {
        Phase::Delivering { next, .. } | Phase::Gapping(next) => next,
        _ => 0,
    }
}
