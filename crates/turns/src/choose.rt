// The action that a trial chooses, by the values of the node whose turn it is.
ghost use Rattle.std.specs.Prelude.{◌≡◌};
ghost use Rattle.charts.specs.Trials.{request_by, respond_by, is_due, delivers, acts};
ghost use Rattle.turns.specs.Turns.{starts_at, chooses_at};

use charts::{Action, Cell, Kept, Kind, Mode, Phase, Signal, User};
use record::named;

// The request of node i: data and label count its requests.
fn request(i: u8, u: User, x: Kept) -> Action
    ensures { result ≡ request_by i u x }
{
    Action {
        label: (x.made % 64) as u8,
        header: u32::from(i),
        datum: u32::from(x.made),
        ..named(Kind::Request.number(), i, u.address)
    }
}

// A respond with acknowledgement 1, the standard's ack_complete.
fn respond(i: u8, hold: bool) -> Action
    ensures { result ≡ respond_by i hold }
{
    Action {
        ack: 1,
        hold: u8::from(hold),
        ..named(Kind::Respond.number(), i, 0)
    }
}

// Whether the next Header, Data or Ack that comes to a node is lost.
fn is_due(u: User, x: Kept) -> bool
    ensures { result ≡ is_due u x }
{
    u16::from(x.heard) + 1 == u16::from(u.period)
}

fn deliver(s: Signal, u: User, x: Kept) -> Action
    ensures { result ≡ delivers s u x }
{
    if link::signals::is_checked(s) && is_due(u, x) {
        return named(Kind::Lose.number(), 0, 0);
    }
    named(Kind::Pass.number(), 0, 0)
}

// What the holder i does. In Answering its clock is a filler.
#[tactic(auto, unfolding(charts::specs::Trials::acts))]
fn act(concatenated: bool, i: u8, mode: Mode, u: User, x: Kept) -> Action
    ensures { result ≡ acts concatenated i mode u x }
{
    if link::modes::is_answering(mode) && x.filled == u.fillers {
        return respond(i, u.hold && !concatenated);
    }
    if link::modes::is_holding(mode) {
        return request(i, u, x);
    }
    named(Kind::Clock.number(), i, 0)
}

// What node i does on an Idle bus: it asks, or else arbitrates; where nobody can, the bus is reset.
#[tactic(auto, unfolding(crate::specs::Turns::starts_at))]
fn start(i: u8, c: Cell, u: User, x: Kept) -> Action
    ensures { result ≡ starts_at i c u x }
{
    if c.buffer.is_none() && x.left == 0 {
        return request(i, u, x);
    }
    if c.buffer.is_some() && !c.won {
        return named(Kind::Arbitrate.number(), i, 0);
    }
    named(Kind::Reset.number(), 0, 0)
}

// The next action, where it is node i's turn.
#[tactic(auto, unfolding(crate::specs::Turns::chooses_at))]
pub fn choose(phase: Phase, concatenated: bool, i: u8, c: Cell, u: User, x: Kept) -> Action
    ensures { result ≡ chooses_at phase concatenated i c u x }
{
    match phase {
        Phase::Idle => start(i, c, u, x),
        Phase::Busy => act(concatenated, i, c.mode, u, x),
        Phase::Delivering { signal, .. } => deliver(signal, u, x),
        Phase::Granting => named(Kind::Grant.number(), 0, 0),
        Phase::Gapping(_) => named(Kind::Gap.number(), 0, 0),
    }
}
