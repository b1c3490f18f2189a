// The twelve kinds of actions: each makes a plan from the few values that it looks at, the phase, one cell and the marks of all nodes.
// The bus's record is not handed in.
ghost use Rattle.std.specs.Prelude.{◌≡◌, ◌&&◌};
ghost use Rattle.charts.specs.declared.Phase.TheVariants as P;
ghost use Rattle.charts.specs.State.{upd};
ghost use Rattle.charts.specs.Actions.{request, respond, clock, grant, reset, ask};
ghost use Rattle.charts.specs.Actions.{starts, wins, first_other, next_other, puts_out, marking_by, onward, hearing, next_of};
ghost use Rattle.charts.specs.View.{mark};
ghost use Rattle.link.specs.Reading.{heard_by};
ghost use Rattle.deciding.specs.Gets.{incoming, next_gap, phase_after, marking_in, got, gets};
ghost use Rattle.deciding.specs.Decides.{decides_from, decides};
ghost use Rattle.deciding.specs.Plans.{doing, settled};

use crate::plans::Plan;
use crate::{Scene, marks, phases, plans};
use charts::{
    Arrival, Cell, Heard, Marking, Mode, Move, Output, Packet, Phase, Refusal, Report, Signal, Way,
};

// The node starts to send a packet.
fn start(p: Packet, c: Cell) -> Cell
    ensures { result ≡ starts p c }
{
    Cell {
        mode: Mode::Sending(0),
        sending: p,
        ..c
    }
}

// 1. request
#[tactic(auto, unfolding(charts::specs::Actions::request))]
pub(crate) fn request(phase: Phase, c: Cell, p: Packet) -> Result<Plan, Refusal>
    ensures { result ≡ settled (request phase c p) }
{
    if link::modes::is_rest(c.mode) && c.buffer.is_none() {
        plans::quietly(
            phase,
            Cell {
                buffer: Some(p),
                ..c
            },
        )
    } else if link::modes::is_holding(c.mode) {
        plans::quietly(phase, start(p, c))
    } else {
        Err(Refusal::NotOpen)
    }
}

// The cell of a node that has won the bus: marked won and holder, and the packet leaves its buffer.
fn win(p: Packet, c: Cell) -> Cell
    ensures { result ≡ wins p c }
{
    Cell {
        buffer: None,
        won: true,
        holder: true,
        ..start(p, c)
    }
}

// Whether a node in that mode is decided by an action: kind 2 decides one in Rest, kind 12 one that is Asked.
fn decides_from(mode: Mode, m: Move) -> bool
    ensures { result ≡ decides_from mode m }
{
    match m {
        Move::Arbitrate(_) => link::modes::is_rest(mode),
        Move::Decide(_) => link::modes::is_asked(mode),
        _ => false,
    }
}

// 2. arbitrate and 12. decide: node i contends for the bus with the packet in its buffer; "a loser returns to Rest".
// (Both go through here: a second call would copy each cell through memory.)
pub(crate) fn decide(phase: Phase, i: u8, c: Cell, m: Move) -> Result<Plan, Refusal>
    ensures { result ≡ settled (decides phase i c m) }
{
    if !decides_from(c.mode, m) {
        return Err(Refusal::NotOpen);
    }
    let Some(p) = c.buffer else {
        return Err(Refusal::NotOpen);
    };
    if phases::is_idle(phase) && !c.won {
        Ok(Plan {
            report: Report::Won(i),
            phase: Phase::Busy,
            cell: win(p, c),
            marking: Marking::Nothing,
        })
    } else {
        Ok(Plan {
            report: Report::Lost(i),
            phase,
            cell: Cell {
                mode: Mode::Rest,
                ..c
            },
            marking: Marking::Nothing,
        })
    }
}

// 3. respond. The bus's own mark: "While it is set, respond with hold 1 is not open".
#[tactic(auto, unfolding(charts::specs::Actions::respond))]
pub(crate) fn respond(
    phase: Phase,
    concatenated: bool,
    c: Cell,
    ack: u8,
    hold: bool,
) -> Result<Plan, Refusal>
    ensures { result ≡ settled (respond phase concatenated c ack hold) }
{
    if !link::modes::is_answering(c.mode) || concatenated && hold {
        return Err(Refusal::NotOpen);
    }
    plans::quietly(
        phase,
        Cell {
            mode: Mode::Acking { step: 0, ack, hold },
            ..c
        },
    )
}

// The first receiver of node i's signals.
fn first_other(i: u8) -> u8
    ensures { result ≡ first_other i }
{
    if i == 0 { 1 } else { 0 }
}

// The receiver of node i's signals after node j, which may be past the last.
fn next_other(i: u8, j: u8) -> u16
    ensures { result ≡ next_other i j }
{
    let next = j as u16 + 1;
    if next == i as u16 { next + 1 } else { next }
}

// "Start clears the misled marks"; the bus's own mark is "set when an Acking node puts out its closing Prefix".
fn marking_by(mode: Mode, s: Signal) -> Marking
    ensures { result ≡ marking_by mode s }
{
    match s {
        Signal::Start => Marking::Misled,
        Signal::Prefix if link::modes::is_acking(mode) => Marking::Concatenated(true),
        _ => Marking::Nothing,
    }
}

// Node i puts out a signal; "End ends the holding".
fn put(i: u8, c: Cell, signal: Signal, mode: Mode, report: Report) -> Result<Plan, Refusal>
    ensures { result ≡ doing report (P.Delivering i signal (first_other i)) (puts_out signal mode c) (marking_by c.mode signal) }
{
    Ok(Plan {
        report,
        phase: Phase::Delivering {
            sender: i,
            signal,
            next: first_other(i),
        },
        cell: Cell {
            mode,
            holder: !link::signals::is_end(signal),
            ..c
        },
        marking: marking_by(c.mode, signal),
    })
}

// 4. clock: the only holder puts out a signal, or a Spurious one its End, which reaches nobody ("no holder left: bus Gapping from 0").
#[tactic(auto, unfolding(charts::specs::Actions::clock))]
pub(crate) fn clock(scene: Scene, i: u8, c: Cell) -> Result<Plan, Refusal>
    ensures { result ≡ settled (clock scene.entry.n scene.entry.phase i c (mark scene.entry.holder.now)) }
{
    if !phases::is_busy(scene.phase) || !c.holder {
        return Err(Refusal::NotOpen);
    }
    match link::emit(i, c.mode, c.sending) {
        Output::Nothing => Err(Refusal::NotOpen),
        Output::Frees => {
            let left = marks::others(scene.holder, i, scene.n);
            let phase = if left { Phase::Busy } else { Phase::Gapping(0) };
            plans::quietly(
                phase,
                Cell {
                    mode: Mode::Rest,
                    holder: false,
                    ..c
                },
            )
        }
        Output::Puts(signal, mode, report) => {
            if marks::others(scene.holder, i, scene.n) {
                return Err(Refusal::NotOpen);
            }
            put(i, c, signal, mode, report)
        }
    }
}

// The phase once node j has got node i's signal; `own` is then the pending mark of node j.
fn onward(n: u8, i: u8, signal: Signal, j: u8, pending: &[bool; 63], own: bool) -> Phase
    ensures { result ≡ onward n i signal j (upd (mark pending.now) j own) }
{
    let next = next_other(i, j);
    if next < n as u16 {
        Phase::Delivering {
            sender: i,
            signal,
            next: next as u8,
        }
    } else if !link::signals::is_end(signal) {
        Phase::Busy
    } else if marks::some_with(pending, j, own, n) {
        Phase::Granting
    } else {
        Phase::Gapping(0)
    }
}

// "after node n−1 the bus is Idle"
fn next_gap(n: u8, j: u8) -> Phase
    ensures { result ≡ next_gap n j }
{
    if j < n.saturating_sub(1) {
        Phase::Gapping(j + 1)
    } else {
        Phase::Idle
    }
}

// The phase once the next node has got its signal or its Gap; `own` is then the pending mark of that node.
fn phase_after(scene: Scene, own: bool) -> Phase
    ensures { result ≡ phase_after scene.entry.n scene.entry.phase (upd (mark scene.entry.pending.now) (next_of scene.entry.phase) own) }
{
    match scene.phase {
        Phase::Delivering {
            sender,
            signal,
            next,
        } => onward(scene.n, sender, signal, next, scene.pending, own),
        Phase::Gapping(j) => next_gap(scene.n, j),
        phase => phase,
    }
}

// The receiver's cell after what it heard.
fn hearing(c: Cell, heard: Heard, misleads: bool) -> Cell
    ensures { result ≡ hearing c heard misleads }
{
    Cell {
        mode: heard.mode,
        pending: c.pending || heard.pends,
        misled: c.misled || misleads,
        ..c
    }
}

// The bus's own mark is "cleared when the bus becomes Idle".
fn marking_in(phase: Phase) -> Marking
    ensures { result ≡ marking_in phase }
{
    if phases::is_idle(phase) {
        Marking::Concatenated(false)
    } else {
        Marking::Nothing
    }
}

// The next node's report and its cell, once it has got what came to it.
fn got(scene: Scene, report: Report, cell: Cell) -> Result<Plan, Refusal>
    ensures { result ≡ settled (got scene.entry.n scene.entry.phase (mark scene.entry.pending.now) report cell) }
{
    let phase = phase_after(scene, cell.pending);
    Ok(Plan {
        report,
        phase,
        cell,
        marking: marking_in(phase),
    })
}

// What comes to the next node by an action: by 5. pass, 6. lose or 7. change of the signal that is on its way, by 9. gap a Gap, and by others nothing.
fn incoming(phase: Phase, misled: bool, m: Move) -> Arrival
    ensures { result ≡ incoming phase misled m }
{
    match (m, phase) {
        (Move::Carry(way), Phase::Delivering { signal, .. }) => link::arrive(way, misled, signal),
        (Move::GapNext, Phase::Gapping(_)) => Arrival::Hears(Signal::Gap, false),
        _ => Arrival::Closed,
    }
}

// 5. pass, 6. lose, 7. change and 9. gap: the next node gets what comes to it, and does with it what the table says.
// (`link::receive` is called from here alone, and so compiled into the step: a second call would copy each mode through memory.)
pub(crate) fn hear(table: &[u16; 350], scene: Scene, c: Cell, m: Move) -> Result<Plan, Refusal>
    ensures { result ≡ settled (gets (heard_by table.now) scene.entry.n scene.entry.phase c (mark scene.entry.pending.now) (incoming scene.entry.phase c.misled m)) }
{
    match incoming(scene.phase, c.misled, m) {
        Arrival::Closed => Err(Refusal::NotOpen),
        Arrival::Lost => got(scene, Report::Silent, c),
        Arrival::Hears(signal, misleads) => {
            let label = c.sending.head.label;
            let heard = link::receive(table, phases::next_of(scene.phase), label, c.mode, signal);
            got(scene, heard.report, hearing(c, heard, misleads))
        }
    }
}

// 8. grant: the lowest pending node stops being pending and becomes holder. "If none is pending after that: Busy"
#[tactic(auto, unfolding(charts::specs::Actions::grant))]
pub(crate) fn grant(scene: Scene, i: u8, c: Cell) -> Result<Plan, Refusal>
    ensures { result ≡ settled (grant scene.entry.n scene.entry.phase i c (mark scene.entry.pending.now)) }
{
    if !phases::is_granting(scene.phase) {
        return Err(Refusal::NotOpen);
    }
    if !marks::some(scene.pending, scene.n) {
        return plans::quietly(Phase::Busy, c);
    }
    let left = marks::others(scene.pending, i, scene.n);
    let phase = if left { Phase::Granting } else { Phase::Busy };
    plans::quietly(
        phase,
        Cell {
            mode: link::modes::granted(c.mode),
            pending: false,
            holder: true,
            ..c
        },
    )
}

// 10. reset
#[tactic(auto, unfolding(charts::specs::Actions::reset))]
pub(crate) fn reset(scene: Scene, c: Cell) -> Result<Plan, Refusal>
    ensures { result ≡ settled (reset scene.entry.n scene.entry.phase c (mark scene.entry.won.now)) }
{
    if !phases::is_idle(scene.phase) || !marks::some(scene.won, scene.n) {
        return Err(Refusal::NotOpen);
    }
    Ok(Plan {
        report: Report::Silent,
        phase: scene.phase,
        cell: c,
        marking: Marking::Won,
    })
}

// 11. ask
#[tactic(auto, unfolding(charts::specs::Actions::ask))]
pub(crate) fn ask(phase: Phase, c: Cell) -> Result<Plan, Refusal>
    ensures { result ≡ settled (ask phase c) }
{
    if !link::modes::is_rest(c.mode) || c.buffer.is_none() {
        return Err(Refusal::NotOpen);
    }
    plans::quietly(
        phase,
        Cell {
            mode: Mode::Asked,
            ..c
        },
    )
}
