// The sums of a run file's actions, block by block: each piece of 512 bytes that is fed becomes text in a buffer that the caller lends.
#![tactic(auto)]

mod block;

ghost use Rattle.std.specs.Prelude.{◌≡◌, ◌≤◌, length, ℕ};
ghost use Rattle.transcript.specs.Lines.{done_line};
ghost use Rattle.transcript.specs.Room.{put};
ghost use Rattle.files.specs.Order.{is_ended};
ghost use Rattle.walk.specs.Feeding.{feed_of, finish_of};
ghost use Rattle.walk.specs.Reading.{reading, started};
ghost use Rattle.summing.specs.Summed.{tracing};

use files::order;
use files::order::Stage;
use walk::{Fed, Walk};

// A summing between two pieces of a file: block 0's n, and how far the file has been read.
#[derive(Clone, Copy)]
pub struct Summing {
    pub n: u8,
    pub stage: Stage,
}

impl Walk for Summing {
    ghost State = { ℕ };

    ghost walker = { tracing };

    ghost seen = { λ s. reading s.n s.stage };

    fn start() -> Summing
        ensures { reading result.n result.stage ≡ started }
    {
        Summing {
            n: 0,
            stage: Stage::Unopened,
        }
    }

    // The line of sums of a piece of a file, or its refusal.
    fn feed(self, piece: &[u8], out: &mut [u8; 2048]) -> Fed<Summing> {
        let entered = walk::enter(self.stage, self.n, piece, out);
        let Some(head) = entered.found else {
            return Fed {
                walk: Summing {
                    stage: Stage::Ended,
                    ..self
                },
                end: entered.end,
                ended: true,
            };
        };
        let sums = runfile::action_sums(piece);
        let last = head.count as usize;
        let at = figures::put_figures(out, 0, head.number as u64, &sums[..last]);
        let first = order::accepted_by(self.stage);
        let part = block::look_at_actions(head.n, piece, head.count, first, out, at);
        Fed {
            walk: Summing {
                n: part.state,
                stage: order::stage_after(part.ended, head.number, head.count),
            },
            end: part.end,
            ended: part.ended,
        }
    }

    fn finish(self, out: &mut [u8; 2048]) -> usize {
        walk::put_end(self.stage, out)
    }
}
