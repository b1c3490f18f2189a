// Number 12: which states may be handed in. Only the phase and the nodes below n are looked at.
ghost use Rattle.std.specs.Prelude.{◌≡◌, Bool, ◌&&◌, ◌≤◌, get_or};
ghost use Rattle.charts.specs.State.{every};
ghost use Rattle.charts.specs.Valid.{is_size, is_ack, mode_fits, packet_fits, cell_fits, signal_fits, phase_fits, valid};
ghost use Rattle.charts.specs.View.{view, cell_of, fresh_node};

use charts::{Bus, Mode, Node, Packet, Phase, Signal};

// "an acknowledgement over 15" is refused.
fn is_ack(ack: u8) -> bool
    ensures { result ≡ is_ack ack }
{
    ack < 16
}

#[tactic(auto, unfolding(charts::specs::Valid::mode_fits))]
fn mode_fits(mode: Mode) -> bool
    ensures { result ≡ mode_fits mode }
{
    match mode {
        Mode::AckEnd(Some(ack)) => is_ack(ack),
        Mode::BodyOwn(h) | Mode::BodyAll(h) | Mode::TailOwn(h, _) | Mode::TailAll(h, _) =>
            record::is_label(h.label),
        Mode::Sending(step) => step < 6,
        Mode::Acking { step, ack, .. } => step < 3 && is_ack(ack),
        _ => true,
    }
}

fn packet_fits(n: u8, p: Packet) -> bool
    ensures { result ≡ packet_fits n p }
{
    record::is_address(n, p.to) && record::is_label(p.head.label)
}

// A node's record, whatever its marks.
#[tactic(auto, unfolding(charts::specs::Valid::cell_fits))]
fn node_fits(n: u8, x: Node) -> bool
    ensures { (w p h m : Bool) → result ≡ cell_fits n (cell_of x w p h m) }
{
    if let Some(p) = x.buffer
        && !packet_fits(n, p)
    {
        return false;
    }
    mode_fits(x.mode) && packet_fits(n, x.sending)
}

fn signal_fits(n: u8, s: Signal) -> bool
    ensures { result ≡ signal_fits n s }
{
    match s {
        Signal::Dest(a) => record::is_address(n, a),
        Signal::Header(h, _) => record::is_label(h.label),
        Signal::Ack(a, _) => is_ack(a),
        _ => true,
    }
}

#[tactic(auto, unfolding(charts::specs::Valid::phase_fits))]
fn phase_fits(n: u8, phase: Phase) -> bool
    ensures { result ≡ phase_fits n phase }
{
    match phase {
        Phase::Delivering {
            sender,
            signal,
            next,
        } => sender < n && next < n && sender != next && signal_fits(n, signal),
        Phase::Gapping(j) => j < n,
        _ => true,
    }
}

// The clauses of 12 that make a step safe: those on n and the phase.
pub(crate) fn is_safe(n: u8, phase: Phase) -> bool
    ensures { result ≡ (is_size n && phase_fits n phase) }
{
    record::is_size(n) && phase_fits(n, phase)
}

fn nodes_fit(n: u8, nodes: &[Node; 63]) -> bool
    requires { n ≤ 63 }
    ensures { (w p h m : Bool) → result ≡ every (λ k. cell_fits n (cell_of (get_or nodes.now k fresh_node) w p h m)) n }
{
    nodes.iter().take(n as usize).all(|x| node_fits(n, *x))
}

pub fn is_valid(b: Bus) -> bool
    ensures { result ≡ valid (view b) }
{
    is_safe(b.n, b.phase) && nodes_fit(b.n, &b.nodes)
}
