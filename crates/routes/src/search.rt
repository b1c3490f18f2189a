// The search: "going deeper by one action with one less left".
ghost use Rattle.std.specs.Prelude.{◌≡◌, true};
ghost use Rattle.charts.specs.Routes.{gives};
ghost use Rattle.charts.specs.View.{view};
ghost use Rattle.charts.specs.Valid.{valid};
ghost use Rattle.routes.specs.Search.{searched, prepended, trail_of};

use crate::choices;
use charts::{Action, Bus, Question, Report, Word};
use record::named;

// Whether a report is asked for: its first word, and its node.
#[tactic(auto, unfolding(charts::specs::Routes::gives))]
fn gives(q: Question, r: Report) -> bool
    ensures { result ≡ gives q r }
{
    let (word, node) = match r {
        Report::Silent => return false,
        Report::Won(i) => (Word::Won, i),
        Report::Lost(i) => (Word::Lost, i),
        Report::Sent(i, _) => (Word::Sent, i),
        Report::Acked(i, ..) => (Word::Ack, i),
        Report::Miss(i, _) => (Word::Miss, i),
        Report::Drop(i, _) => (Word::Drop, i),
        Report::Good(i, ..) => (Word::Good, i),
        Report::Dcrc(i, _) => (Word::Dcrc, i),
        Report::Broad(i, ..) => (Word::Broad, i),
    };
    word == q.word && node == q.node
}

// The route with an action before it. The last place is free: a route has at most 6 records.
fn prepend(a: Action, rest: [Action; 6]) -> [Action; 6]
    ensures { result ≡ prepended a rest }
{
    [a, rest[0], rest[1], rest[2], rest[3], rest[4]]
}

// The first route of just `left` bus events, its records in their places; `report` is what the last event so far has given, and with none left it is asked for or it is not.
pub(crate) fn search(b: Bus, report: Report, q: Question, left: u8) -> Option<[Action; 6]>
    requires { valid (view b) ≡ true }
    ensures { result ≡ trail_of (searched left (view b) report q) }
{
    if left == 0 {
        return if gives(q, report) {
            Some([named(0, 0, 0); 6])
        } else {
            None
        };
    }
    for k in 0..choices::choices(b.n, b.phase) {
        let a = choices::choice(b.n, b.phase, k);
        let played = bus::advance(b, a);
        if let Ok(given) = played.report {
            if let Some(rest) = search(played.bus, given, q, left - 1) {
                return Some(prepend(a, rest));
            }
        }
    }
    None
}
