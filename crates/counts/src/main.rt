// Prints the counts of how many sequences of signals leave a node in which mode on standard output: a line for each length from 0 to 16.
#![tactic(auto)]

fn main(rt: HostRuntime) {
    let mut text = [0u8; 16384];
    let end = counting::put_counts(&mut text);
    stream::print(&rt.stderr(), "counts", &mut rt.stdout(), &text[..end]);
}
