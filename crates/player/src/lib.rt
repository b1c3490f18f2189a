// Plays a run file block by block: each piece of 512 bytes that it is fed becomes text in a buffer that the caller lends.
#![tactic(auto)]

mod block;

ghost use Rattle.std.specs.Prelude.{◌≡◌, ◌≤◌, length};
ghost use Rattle.charts.specs.State as charted;
ghost use Rattle.transcript.specs.Lines.{done_line};
ghost use Rattle.transcript.specs.Room.{put};
ghost use Rattle.files.specs.Order.{is_ended};
ghost use Rattle.walk.specs.Feeding.{feed_of, finish_of};
ghost use Rattle.player.specs.Feeding.{playing_at, advancing, started};

use charts::Bus;
use files::order;
use files::order::Stage;
use walk::{Fed, Walk};

// The player between two pieces: the bus, and how far the file has been played.
#[derive(Clone, Copy)]
pub struct Player {
    pub bus: Bus,
    pub stage: Stage,
}

impl Walk for Player {
    ghost State = { charted.State };

    ghost walker = { advancing };

    ghost seen = { λ p. playing_at p.bus p.stage };

    fn start() -> Player
        ensures { playing_at result.bus result.stage ≡ started }
    {
        Player {
            bus: bus::fresh(0).bus,
            stage: Stage::Unopened,
        }
    }

    // Plays a piece of a file.
    fn feed(self, piece: &[u8], out: &mut [u8; 2048]) -> Fed<Player> {
        let entered = walk::enter(self.stage, self.bus.n, piece, out);
        let Some(head) = entered.found else {
            return Fed {
                walk: Player {
                    stage: Stage::Ended,
                    ..self
                },
                end: entered.end,
                ended: true,
            };
        };
        let at = walk::put_nodes_once(self.stage, head.n, out);
        let part = block::play_actions(
            block::opening(self.stage, self.bus, head.n),
            piece,
            head.count,
            order::accepted_by(self.stage),
            out,
            at,
        );
        Fed {
            walk: Player {
                bus: part.state,
                stage: order::stage_after(part.ended, head.number, head.count),
            },
            end: part.end,
            ended: part.ended,
        }
    }

    fn finish(self, out: &mut [u8; 2048]) -> usize {
        walk::put_end(self.stage, out)
    }
}
