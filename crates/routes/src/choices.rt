// The bus events that can be open in a phase, by number, in the order of their records' bytes: the search asks for no others.
ghost use Rattle.std.specs.Prelude.{◌≡◌, ◌≤◌};
ghost use Rattle.routes.specs.Choices.{ways, choices, change_of, way_of, choice};

use charts::{Action, Kind, Phase, Signal};
use record::named;

const EVERYBODY: u8 = 63;

// A Dest may be changed to each address, of which there are n + 1; a Header, Data or Ack may be lost or changed.
fn ways(n: u8, s: Signal) -> u8
    requires { n ≤ 63 }
    ensures { result ≡ ways n s }
{
    match s {
        Signal::Dest(_) => n + 2,
        Signal::Header(..) | Signal::Data(..) | Signal::Ack(..) => 3,
        _ => 1,
    }
}

// How many choices there are.
pub(crate) fn choices(n: u8, phase: Phase) -> u8
    requires { n ≤ 63 }
    ensures { result ≡ choices n phase }
{
    match phase {
        Phase::Idle => 0,
        Phase::Busy => n,
        Phase::Delivering { signal, .. } => ways(n, signal),
        Phase::Granting => 1,
        Phase::Gapping(_) => 1,
    }
}

// A Dest's k-th change: to the nodes' addresses in their order, and then to all nodes.
fn change_of(n: u8, k: u8) -> Action
    ensures { result ≡ change_of n k }
{
    named(Kind::Change.number(), 0, if k < n { k } else { EVERYBODY })
}

// The k-th way of a signal to its next receiver.
#[tactic(auto, unfolding(crate::specs::Choices::way_of))]
fn way_of(n: u8, s: Signal, k: u8) -> Action
    ensures { result ≡ way_of n s k }
{
    if k == 0 {
        return named(Kind::Pass.number(), 0, 0);
    }
    if !link::signals::is_checked(s) {
        return change_of(n, k - 1);
    }
    if k == 1 {
        return named(Kind::Lose.number(), 0, 0);
    }
    named(Kind::Change.number(), 0, 0)
}

// The k-th choice.
#[tactic(auto, unfolding(crate::specs::Choices::choice))]
pub(crate) fn choice(n: u8, phase: Phase, k: u8) -> Action
    ensures { result ≡ choice n phase k }
{
    match phase {
        Phase::Idle => named(Kind::Gap.number(), 0, 0),
        Phase::Busy => named(Kind::Clock.number(), k, 0),
        Phase::Delivering { signal, .. } => way_of(n, signal, k),
        Phase::Granting => named(Kind::Grant.number(), 0, 0),
        Phase::Gapping(_) => named(Kind::Gap.number(), 0, 0),
    }
}
