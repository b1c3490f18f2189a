// The sums of the run file on standard input, a line for each block, on standard output.
// Its memory is constant: a block of input, the text of a block, a buffer of output, and how far the file is read.
#![tactic(auto)]

use stream::Sink;
use summing::Summing;

fn main(rt: HostRuntime) {
    let mut input = [0u8; 512];
    let mut out = [0u8; 65536];
    let mut sink = Sink::new(rt.stdout(), &mut out);
    filing::run::<Summing, _, _>(&rt.stderr(), "sums", &mut rt.stdin(), &mut sink, &mut input);
}
