// Scans of all nodes: how much is waited, and whose turn it is. Nodes from n on are not looked at.
ghost use Rattle.std.specs.Prelude.{◌≡◌, ◌<◌, ◌≤◌};
ghost use Rattle.charts.specs.State.{is_idle};
ghost use Rattle.charts.specs.View.{mark};
ghost use Rattle.bus.specs.Asking.{places};
ghost use Rattle.turns.specs.Turns.{left_in, full_in, stray_in, overs, without, first_of, waits_by, actor_by};

use bus::asking::places;
use charts::{Bus, Kept, Node, Phase};

// Whether the buffer of node k is full.
fn is_full(nodes: &[Node; 63], k: u8) -> bool
    requires { k < 63 }
    ensures { result ≡ full_in nodes.now k }
{
    nodes[k as usize].buffer.is_some()
}

// How much is waited.
pub fn wait(bus: &Bus, kept: &[Kept; 63]) -> u8
    ensures { result ≡ waits_by (is_idle bus.now.phase) (full_in bus.now.nodes) (mark bus.now.won) (left_in kept.now) (places bus.now.n) }
{
    if !deciding::phases::is_idle(bus.phase) {
        return 0;
    }
    let mut least = kept[0].left;
    for k in 0..places(bus.n) {
        if is_full(&bus.nodes, k) || bus.won[k as usize] {
            return 0;
        }
        least = least.min(kept[k as usize].left);
    }
    least
}

// Who may ask or arbitrate on an Idle bus, of the nodes below n.
fn starter(n: u8, bus: &Bus, kept: &[Kept; 63]) -> u8
    requires { n ≤ 63 }
    ensures value { result ≡ first_of (without (overs (left_in kept.now)) (full_in bus.now.nodes)) (without (full_in bus.now.nodes) (mark bus.now.won)) n }
    ensures upper_bound { result < 63 }
{
    let asks = (0..n).find(|k| kept[*k as usize].left == 0 && !is_full(&bus.nodes, *k));
    if let Some(k) = asks {
        return k;
    }
    (0..n)
        .find(|k| is_full(&bus.nodes, *k) && !bus.won[*k as usize])
        .unwrap_or(0)
}

// Who acts on a Busy one: the lowest Spurious holder, or else the lowest holder.
fn acting(n: u8, bus: &Bus) -> u8
    requires { n ≤ 63 }
    ensures value { result ≡ first_of (stray_in bus.now.nodes (mark bus.now.holder)) (mark bus.now.holder) n }
    ensures upper_bound { result < 63 }
{
    let stray = (0..n).find(|k| bus.holder[*k as usize]
        && link::modes::is_spurious(bus.nodes[*k as usize].mode));
    if let Some(k) = stray {
        return k;
    }
    deciding::marks::lowest(&bus.holder, n).unwrap_or(0)
}

// The node whose turn it is. (A receiver that has no place in the arrays counts as node 0; no bus has one.)
pub fn actor(bus: &Bus, kept: &[Kept; 63]) -> u8
    ensures value { result ≡ actor_by (places bus.now.n) bus.now.phase (full_in bus.now.nodes) (mark bus.now.won) (left_in kept.now) (stray_in bus.now.nodes (mark bus.now.holder)) (mark bus.now.holder) }
    ensures upper_bound { result < 63 }
{
    let last = places(bus.n);
    match bus.phase {
        Phase::Idle => starter(last, bus, kept),
        Phase::Busy => acting(last, bus),
        Phase::Delivering { next, .. } if next < 63 => next,
        _ => 0,
    }
}
