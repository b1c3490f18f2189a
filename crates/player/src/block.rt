// One block of a file: the bus that its actions find, and the actions played.
ghost use Rattle.std.specs.Prelude.{◌≡◌, ◌+◌, ◌*◌, ◌≤◌, length};
ghost use Rattle.charts.specs.View.{view};
ghost use Rattle.walk.specs.Feeding.{PutsPart, opening_of};
ghost use Rattle.player.specs.Feeding.{advancing, part_of};
ghost use Rattle.player.specs.Printed.{actions_in};

use bus::asking;
use charts::Bus;
use files::order::Stage;
use walk::Part;

// The bus that a block's actions find: a fresh one for block 0.
pub(crate) fn opening(stage: Stage, b: Bus, n: u8) -> Bus
    ensures { view result ≡ opening_of advancing stage n (view b) }
{
    match stage {
        Stage::Unopened => bus::fresh(n).bus,
        _ => b,
    }
}

// Plays the actions of a block, the first of which has that index, and puts their text from place `at` on, up to the first refusal.
// Each action changes the bus where it lies: to hand it to `bus::advance` and back would copy it twice an action.
// The bounds are what `walk::enter` gives; a struct to keep them would be put together and taken apart here alone.
pub(crate) fn play_actions(
    b: Bus,
    piece: &[u8],
    count: u8,
    first: u64,
    out: &mut [u8; 2048],
    at: usize,
) -> Part<Bus>
    requires piece_len { length piece.now ≡ 512 }
    requires count_bound { count ≤ 31 }
    requires first_bound { first ≤ 133143986400 }
    requires at_bound { at ≤ 64 }
    ensures end_bound { result.end ≤ 2048 }
    ensures puts_part { PutsPart view (part_of (actions_in count piece.now) (view b) first) out.old at result out.new }
{
    let table = link::table::table();
    let mut state = b;
    let mut asked = asking::askers(&state.nodes, state.n);
    let mut end = at;
    for k in 0..count as usize {
        let a = record::read_action(&piece[14 + 16 * k..]);
        let index = first + k as u64;
        let report = match bus::play(&mut state, &table, 0 < asked, a) {
            Ok(report) => report,
            Err(refusal) => {
                return Part {
                    state,
                    end: transcript::put_refused(out, end, index, refusal.number()),
                    ended: true,
                };
            }
        };
        end = transcript::put_line(out, end, index, a.kind, report);
        asked = asking::askers_after(asked, a.kind);
    }
    Part {
        state,
        end,
        ended: false,
    }
}
