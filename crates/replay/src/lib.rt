// Any list of action records, played from the fresh bus for n, one step after the other, after a refusal as well. Its contract states demand 3.
#![tactic(auto)]

ghost use Rattle.std.specs.Prelude.{◌≡◌};
ghost use Rattle.charts.specs.Numbers.{refusal_number};
ghost use Rattle.charts.specs.View.{view};
ghost use Rattle.replay.specs.Replay.{records_in, seen_replay, played_on, Replays};

use charts::{Bus, Refusal};

// What a replay returns: why n was refused, if it was; how many actions were accepted; and the bus that the last one left.
#[derive(Clone, Copy)]
pub struct Replayed {
    pub refusal: Option<Refusal>,
    pub accepted: usize,
    pub bus: Bus,
}

// The records played from a bus on.
fn play_on(refusal: Option<Refusal>, start: Bus, records: &[u8]) -> Replayed
    ensures { seen_replay result ≡ played_on (refusal_number refusal) (view start) (records_in records.now) }
{
    let mut bus = start;
    let mut accepted: usize = 0;
    for record in records.chunks_exact(16) {
        let played = bus::step(bus, record::read_action(record));
        if played.report.is_ok() {
            accepted += 1;
        }
        bus = played.bus;
    }
    Replayed {
        refusal,
        accepted,
        bus,
    }
}

// The records, 16 bytes each, played from the fresh bus for n. Bytes at the end that are no whole record are not played.
pub fn replay(n: u8, records: &[u8]) -> Replayed
    ensures { Replays n (records_in records.now) result }
{
    let begun = bus::fresh(n);
    play_on(begun.refusal, begun.bus, records)
}
