// Plays the run file on standard input and prints its text on standard output.
// Its memory is constant: 128 blocks of input, as much output, the text of one block, and the player.
#![tactic(auto)]

use player::Player;
use stream::Sink;

fn main(rt: HostRuntime) {
    let mut input = [0u8; 65536];
    let mut out = [0u8; 65536];
    let mut sink = Sink::new(rt.stdout(), &mut out);
    filing::run::<Player, _, _>(&rt.stderr(), "play", &mut rt.stdin(), &mut sink, &mut input);
}
