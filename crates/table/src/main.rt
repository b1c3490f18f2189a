// Prints the reception chart's table on standard output: a line for each mode, from the rules.
#![tactic(auto)]

fn main(rt: HostRuntime) {
    let mut text = [0u8; 8192];
    let end = maker::put_table(&mut text);
    stream::print(&rt.stderr(), "table", &mut rt.stdout(), &text[..end]);
}
