// The lines of a block's actions.
ghost use Rattle.std.specs.Prelude.{◌≡◌, ◌+◌, ◌*◌, ◌≤◌, length};
ghost use Rattle.files.specs.Pieces.{actions_in};
ghost use Rattle.walk.specs.Feeding.{PutsPart, part_of};
ghost use Rattle.listing.specs.Listed.{naming};

use walk::Part;

// Puts the lines of a block's actions, the first of which has that index, from place `at` on, up to the first refusal.
// (The bounds as in `player`: what `walk::enter` gives.)
pub(crate) fn put_actions(
    n: u8,
    piece: &[u8],
    count: u8,
    first: u64,
    out: &mut [u8; 2048],
    at: usize,
) -> Part<u8>
    requires piece_len { length piece.now ≡ 512 }
    requires count_bound { count ≤ 31 }
    requires first_bound { first ≤ 133143986400 }
    requires at_bound { at ≤ 64 }
    ensures end_bound { result.end ≤ 2048 }
    ensures puts_part { PutsPart (λ k. k) (part_of naming (actions_in count piece.now) n first) out.old at result out.new }
{
    let mut end = at;
    for k in 0..count as usize {
        let a = record::read_action(&piece[14 + 16 * k..]);
        if let Err(refusal) = record::decode(n, a) {
            return Part {
                state: n,
                end: transcript::put_refused(out, end, first + k as u64, refusal.number()),
                ended: true,
            };
        }
        end = transcript::put_action(out, end, a);
    }
    Part {
        state: n,
        end,
        ended: false,
    }
}
