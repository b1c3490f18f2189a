// The run file on standard input as a run in plain words on standard output.
// Its memory is constant: a block of input, the text of a block, a buffer of output, and how far the file is read.
#![tactic(auto)]

use listing::Listing;
use stream::Sink;

fn main(rt: HostRuntime) {
    let mut input = [0u8; 512];
    let mut out = [0u8; 65536];
    let mut sink = Sink::new(rt.stdout(), &mut out);
    filing::run::<Listing, _, _>(&rt.stderr(), "list", &mut rt.stdin(), &mut sink, &mut input);
}
