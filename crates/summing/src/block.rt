// One block: its actions looked at.
ghost use Rattle.std.specs.Prelude.{◌≡◌, ◌≤◌, length};
ghost use Rattle.files.specs.Pieces.{actions_in};
ghost use Rattle.walk.specs.Feeding.{PutsPart, part_of};
ghost use Rattle.summing.specs.Summed.{tracing};

use walk::Part;

// Looks at a block's actions, the first of which has that index, by 2 to 6 (13 and 15 after 5), and puts the line of the first that is refused, if there is one,
// from place `at` on.
// (The bounds as in `player`: what `walk::enter` gives.)
pub(crate) fn look_at_actions(
    n: u8,
    piece: &[u8],
    count: u8,
    first: u64,
    out: &mut [u8; 2048],
    at: usize,
) -> Part<u8>
    requires piece_len { length piece.now ≡ 512 }
    requires count_bound { count ≤ 31 }
    requires first_bound { first ≤ 133143986400 }
    requires at_bound { at ≤ 1024 }
    ensures end_bound { result.end ≤ 2048 }
    ensures puts_part { PutsPart (λ k. k) (part_of tracing (actions_in count piece.now) n first) out.old at result out.new }
{
    for k in 0..count as usize {
        let a = record::read_action(&piece[14 + 16 * k..]);
        if let Err(refusal) = record::decode(n, a) {
            return Part {
                state: n,
                end: transcript::put_refused(out, at, first + k as u64, refusal.number()),
                ended: true,
            };
        }
    }
    Part {
        state: n,
        end: at,
        ended: false,
    }
}
