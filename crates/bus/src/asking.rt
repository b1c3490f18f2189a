// How many nodes are Asked. A player counts them once for a block, and then keeps the number by the kinds of the actions: none looks at all nodes.
ghost use Rattle.std.specs.Prelude.{◌≡◌, ◌≤◌};
ghost use Rattle.bus.specs.Asking.{places, askers_in, asked_after};

use charts::{Kind, Node};

// The nodes below n that have a place in the arrays.
pub fn places(n: u8) -> u8
    ensures value { result ≡ places n }
    ensures upper_bound { result ≤ 63 }
{
    n.min(63)
}

// How many of the nodes below n are Asked.
pub fn askers(nodes: &[Node; 63], n: u8) -> u8
    ensures { result ≡ askers_in nodes.now n }
{
    let mut found: u8 = 0;
    for k in 0..places(n) {
        if link::modes::is_asked(nodes[k as usize].mode) {
            found += 1;
        }
    }
    found
}

// How many they are after an accepted action of a kind: kind 11 makes a node Asked, of at most 63, and kind 12 ends it.
pub fn askers_after(asked: u8, kind: u8) -> u8
    ensures { result ≡ asked_after asked kind }
{
    match Kind::try_from(kind) {
        Ok(Kind::Ask) if asked < 63 => asked + 1,
        Ok(Kind::Decide) => asked.saturating_sub(1),
        _ => asked,
    }
}
