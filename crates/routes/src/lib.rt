// A route to an outcome: which bus events, actions of kinds 4 to 9, lead from a state to a report of a node, and which of these lists is the first.
#![tactic(auto)]

mod choices;
mod search;

ghost use Rattle.std.specs.Prelude.{◌≡◌, true};
ghost use Rattle.charts.specs.Numbers.{refusal_number};
ghost use Rattle.charts.specs.Routes.{too_deep, route_number, has_route, Answers, HoldsFirst};
ghost use Rattle.charts.specs.View.{view};

use charts::{Answer, Bus, Question, Refusal, Report, Route};

// "depth over 6 or n over 8"
fn is_too_deep(n: u8, depth: u8) -> bool
    ensures { result ≡ too_deep n depth }
{
    6 < depth || 8 < n
}

// What a question is refused by: 12, then 14, then 4.
#[tactic(auto, unfolding(charts::specs::Routes::route_number, charts::specs::View::view))]
pub fn number(b: Bus, q: Question, depth: u8) -> Option<Refusal>
    ensures { refusal_number result ≡ route_number (view b) q depth }
{
    if !bus::validity::is_valid(b) {
        return Some(Refusal::NotValid);
    }
    if is_too_deep(b.n, depth) {
        return Some(Refusal::TooDeep);
    }
    if b.n <= q.node {
        return Some(Refusal::WrongNode);
    }
    None
}

// The first route of at most `depth` bus events from a state to a report: the lengths from 1 on, and of each length the records in the order of their bytes.
pub fn find(b: Bus, q: Question, depth: u8) -> Answer
    ensures answers { Answers (view b) q depth result }
    ensures first { has_route result ≡ true → HoldsFirst (view b) q depth result }
{
    if let Some(refusal) = number(b, q, depth) {
        return Err(refusal);
    }
    for count in 1..=depth {
        if let Some(actions) = search::search(b, Report::Silent, q, count) {
            return Ok(Some(Route { count, actions }));
        }
    }
    Ok(None)
}
