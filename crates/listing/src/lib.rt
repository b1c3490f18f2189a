// A run file in plain words, block by block: each piece of 512 bytes that is fed becomes text in a buffer that the caller lends.
#![tactic(auto)]

mod block;

ghost use Rattle.std.specs.Prelude.{◌≡◌, ◌≤◌, length, ℕ};
ghost use Rattle.transcript.specs.Room.{put};
ghost use Rattle.files.specs.Order.{is_ended};
ghost use Rattle.walk.specs.Feeding.{feed_of, finish_of};
ghost use Rattle.walk.specs.Reading.{reading, started};
ghost use Rattle.listing.specs.Listed.{naming};

use charts::Refusal;
use files::order;
use files::order::Stage;
use walk::{Fed, Walk};

// A listing between two pieces of a file: block 0's n, and how far the file has been read. (A summing has the same fields, and is a walk of its own.)
#[derive(Clone, Copy)]
pub struct Listing {
    pub n: u8,
    pub stage: Stage,
}

impl Walk for Listing {
    ghost State = { ℕ };

    ghost walker = { naming };

    ghost seen = { λ l. reading l.n l.stage };

    fn start() -> Listing
        ensures { reading result.n result.stage ≡ started }
    {
        Listing {
            n: 0,
            stage: Stage::Unopened,
        }
    }

    // Lists a piece of a file.
    fn feed(self, piece: &[u8], out: &mut [u8; 2048]) -> Fed<Listing> {
        let entered = walk::enter(self.stage, self.n, piece, out);
        let Some(head) = entered.found else {
            return Fed {
                walk: Listing {
                    stage: Stage::Ended,
                    ..self
                },
                end: entered.end,
                ended: true,
            };
        };
        let at = walk::put_nodes_once(self.stage, head.n, out);
        let first = order::accepted_by(self.stage);
        let part = block::put_actions(head.n, piece, head.count, first, out, at);
        Fed {
            walk: Listing {
                n: part.state,
                stage: order::stage_after(part.ended, head.number, head.count),
            },
            end: part.end,
            ended: part.ended,
        }
    }

    // Nothing stands at a file's end, unless the file has no bytes.
    fn finish(self, out: &mut [u8; 2048]) -> usize {
        match self.stage {
            Stage::Unopened => { transcript::put_refused(out, 0, 0, Refusal::WrongLength.number()) }
            _ => 0,
        }
    }
}
