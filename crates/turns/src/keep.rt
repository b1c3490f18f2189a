// What is kept of the users: what follows an action.
ghost use Rattle.std.specs.Prelude.{◌≡◌, ◌&&◌, ◌||◌, length};
ghost use Rattle.charts.specs.Modes.{is_answering};
ghost use Rattle.charts.specs.Trials.{is_carried, heard_after};
ghost use Rattle.charts.specs.View.{users_of};
ghost use Rattle.turns.specs.Turns.{kept_in, checked_in, filled_by, made_by, kept_after, lowered_by, spelled};

use charts::{Action, Cell, Kept, Kind, Phase, Report, User, Users};

// Whether the signal under way is a Header, Data or Ack.
fn is_checked_in(phase: Phase) -> bool
    ensures { result ≡ checked_in phase }
{
    match phase {
        Phase::Delivering { signal, .. } => link::signals::is_checked(signal),
        _ => false,
    }
}

fn is_carried(a: Action) -> bool
    ensures { result ≡ is_carried a }
{
    a.kind == Kind::Pass.number() || a.kind == Kind::Lose.number()
}

// The count of signals towards the next loss: one more if one comes to the node, and at the period it begins anew.
fn heard_after(comes: bool, period: u8, heard: u8) -> u8
    ensures { result ≡ heard_after comes period heard }
{
    if !comes || period == 0 {
        return heard;
    }
    if period - 1 <= heard { 0 } else { heard + 1 }
}

fn filled_by(kind: u8, answering: bool, filled: u8) -> u8
    ensures { result ≡ filled_by kind answering filled }
{
    if kind == Kind::Respond.number() {
        return 0;
    }
    if kind == Kind::Clock.number() && answering {
        return filled.saturating_add(1);
    }
    filled
}

fn made_by(kind: u8, made: u16) -> u16
    ensures { result ≡ made_by kind made }
{
    if kind == Kind::Request.number() {
        return made.saturating_add(1);
    }
    made
}

// What is kept of the node whose turn it was, after its action; its spell aside. c is its cell before.
#[tactic(auto, unfolding(crate::specs::Turns::kept_after))]
pub fn keep(phase: Phase, c: Cell, u: User, a: Action, x: Kept) -> Kept
    ensures { result ≡ kept_after phase c u a x }
{
    let comes = is_carried(a) && is_checked_in(phase);
    Kept {
        heard: heard_after(comes, u.period, x.heard),
        filled: filled_by(a.kind, link::modes::is_answering(c.mode), x.filled),
        made: made_by(a.kind, x.made),
        ..x
    }
}

// Every spell runs down by so much. (Where nothing is waited, as in each phase but Idle, no spell is looked at.)
pub fn run_down(kept: &mut [Kept; 63], by: u8)
    ensures kept_len { length kept.new ≡ 63 }
    ensures kept_after { kept_in kept.new ≡ lowered_by by (kept_in kept.old) }
{
    if by == 0 {
        return;
    }
    for x in kept.iter_mut() {
        x.left = x.left.saturating_sub(by);
    }
}

// The winner's spell begins.
#[tactic(auto, unfolding(charts::specs::View::users_of))]
pub fn begin_spell(kept: &mut [Kept; 63], users: &Users, report: Report)
    ensures kept_len { length kept.new ≡ 63 }
    ensures kept_after { kept_in kept.new ≡ spelled report (users_of users.now) (kept_in kept.old) }
{
    if let Report::Won(i) = report {
        if i < 63 {
            kept[i as usize].left = users[i as usize].spell;
        }
    }
}
