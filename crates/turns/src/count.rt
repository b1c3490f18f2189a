// The tally of a trial, after each action.
ghost use Rattle.std.specs.Prelude.{◌≡◌};
ghost use Rattle.turns.specs.Turns.{counter, request_counted, report_counted};

use charts::{Kind, Report, Tally};

// One more; the largest number stays.
fn more(x: u16) -> u16
    ensures { result ≡ counter x }
{
    x.saturating_add(1)
}

// An action of a kind.
fn count_request(t: Tally, kind: u8) -> Tally
    ensures { result ≡ request_counted kind t }
{
    if kind == Kind::Request.number() {
        return Tally {
            requests: more(t.requests),
            ..t
        };
    }
    t
}

#[tactic(auto, unfolding(crate::specs::Turns::report_counted))]
fn count_report(t: Tally, report: Report) -> Tally
    ensures { result ≡ report_counted report t }
{
    match report {
        Report::Won(_) => Tally {
            wins: more(t.wins),
            ..t
        },
        Report::Sent(..) => Tally {
            sent: more(t.sent),
            ..t
        },
        Report::Acked(..) => Tally {
            acks: more(t.acks),
            ..t
        },
        Report::Miss(..) => Tally {
            misses: more(t.misses),
            ..t
        },
        Report::Drop(..) => Tally {
            drops: more(t.drops),
            ..t
        },
        _ => t,
    }
}

// The tally after an accepted action of a kind with a report.
pub fn count(t: Tally, kind: u8, report: Report) -> Tally
    ensures { result ≡ report_counted report (request_counted kind t) }
{
    count_report(count_request(t, kind), report)
}
