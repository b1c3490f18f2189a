// The bus: a fresh one, and a step on any state by any action record.
#![tactic(auto)]

ghost use Rattle.std.specs.Prelude.{◌≡◌, ◌<◌};
ghost use Rattle.charts.specs.State.{fresh};
ghost use Rattle.charts.specs.Step.{begin, look, step, step_with};
ghost use Rattle.charts.specs.View.{view, mark, seen, seen_begun};
ghost use Rattle.link.specs.Reading.{heard_by};
ghost use Rattle.bus.specs.Advance.{glance, advance_of, step_by, advance_by};
ghost use Rattle.deciding.specs.Plans.{Ready, aimed};

use charts::{Action, Begun, Bus, Head, Mode, Move, Node, Packet, Phase, Played, Refusal, Report};
use deciding::{Scene, cells, marks, plans};

mod aiming;
pub mod asking;
pub mod validity;

// A bus in Idle with no marks, every node in Rest, buffers empty.
fn blank(n: u8) -> Bus
    ensures { view result ≡ fresh n }
{
    let sending = Packet {
        to: 0,
        head: Head {
            header: 0,
            label: 0,
        },
        datum: 0,
    };
    Bus {
        n,
        phase: Phase::Idle,
        nodes: [Node {
            mode: Mode::Rest,
            buffer: None,
            sending,
        }; 63],
        won: [false; 63],
        pending: [false; 63],
        holder: [false; 63],
        misled: [false; 63],
        concatenated: false,
    }
}

// A fresh bus of n nodes, or number 1.
#[tactic(auto, unfolding(charts::specs::Step::begin))]
pub fn fresh(n: u8) -> Begun
    ensures { seen_begun result ≡ begin n }
{
    if record::is_size(n) {
        Begun {
            refusal: None,
            bus: blank(n),
        }
    } else {
        Begun {
            refusal: Some(Refusal::WrongSize),
            bus: blank(0),
        }
    }
}

// A record that was looked at, carried out on the bus where it lies, by the table that is lent: one cell is read and one is written. A refusal leaves the bus as it is.
fn carry_out(
    bus: &mut Bus,
    table: &[u16; 350],
    asked: bool,
    d: Result<Move, Refusal>,
) -> Result<Report, Refusal>
    requires { Ready bus.old.n bus.old.phase (mark bus.old.pending) d }
    ensures { seen (record { report = result; bus = bus.new }) ≡ step_by (heard_by table.now) asked (view bus.old) d }
{
    let i = aiming::aim(bus.n, bus.phase, &bus.pending, d);
    let at = i as usize;
    let cell = cells::cell_of(
        bus.nodes[at],
        bus.won[at],
        bus.pending[at],
        bus.holder[at],
        bus.misled[at],
    );
    let scene = Scene {
        n: bus.n,
        phase: bus.phase,
        concatenated: bus.concatenated,
        asked,
        won: &bus.won,
        pending: &bus.pending,
        holder: &bus.holder,
    };
    let plan = deciding::plan(table, scene, i, cell, d)??;
    bus.phase = plan.phase;
    bus.nodes[at] = cells::node_of(plan.cell);
    bus.won[at] = plan.cell.won;
    bus.pending[at] = plan.cell.pending;
    bus.holder[at] = plan.cell.holder;
    bus.misled[at] = plan.cell.misled;
    marks::clear(&mut bus.misled, plans::clears_misled(plan.marking), bus.n);
    marks::clear(&mut bus.won, plans::clears_won(plan.marking), bus.n);
    bus.concatenated = plans::concatenated_after(plan.marking, bus.concatenated);
    Ok(plan.report)
}

// A record carried out on a bus that is handed over. The copy that is changed is made here alone: each further place that hands the bus on would copy it whole.
// (`Ready` stands at `aiming::aim`, `carry_out` and this: of loose fields, a lent bus and a bus handed over, so one type for the three would be no plainer.)
fn hand_on(b: Bus, d: Result<Move, Refusal>) -> Played
    requires { Ready b.n b.phase (mark b.pending) d }
    ensures { seen result ≡ step_with (view b) d }
{
    let mut bus = b;
    let asked = 0 < asking::askers(&bus.nodes, bus.n);
    let report = carry_out(&mut bus, &link::table::table(), asked, d);
    Played { report, bus }
}

// "A step looks at 12, then 2 to 7": 7 is left to the deciding functions.
#[tactic(auto, using(crate::proofs::ViewLaws::view_n), unfolding(charts::specs::Step::look))]
fn look(b: Bus, a: Action) -> Result<Move, Refusal>
    ensures { result ≡ look (view b) a }
{
    if !validity::is_valid(b) {
        return Err(Refusal::NotValid);
    }
    record::decode(b.n, a)
}

// A step on any state: 12, then 2 to 6 (13 and 15 after 5), then 7.
pub fn step(b: Bus, a: Action) -> Played
    ensures { seen result ≡ step (view b) a }
{
    hand_on(b, look(b, a))
}

// The clauses of 12 that make a step safe, then 2 to 6 (13 and 15 after 5).
#[tactic(auto, unfolding(crate::specs::Advance::glance))]
fn glance(n: u8, phase: Phase, a: Action) -> Result<Move, Refusal>
    ensures { result ≡ glance n phase a }
{
    if validity::is_safe(n, phase) {
        record::decode(n, a)
    } else {
        Err(Refusal::NotValid)
    }
}

// The same step on every valid state (proofs/Advances.antt), without the look at every node's record: a player, whose bus is valid from the fresh one on,
// needs none.
pub fn advance(b: Bus, a: Action) -> Played
    ensures { seen result ≡ advance_of (view b) a }
{
    hand_on(b, glance(b.n, b.phase, a))
}

// For a player: a step on the bus where it lies, by the table that is lent and by what is said of Asked nodes; a refusal leaves the bus as it is. By the chart's own
// table, which a player takes once (`link::table::table`), and where it is right whether some node is Asked (`asking`), it is `advance`.
pub fn play(bus: &mut Bus, table: &[u16; 350], asked: bool, a: Action) -> Result<Report, Refusal>
    ensures { seen (record { report = result; bus = bus.new }) ≡ advance_by (heard_by table.now) asked (view bus.old) a }
{
    let d = glance(bus.n, bus.phase, a);
    carry_out(bus, table, asked, d)
}

// The node that a record is about, and the record looked at.
#[derive(Clone, Copy)]
pub struct Aimed {
    pub node: u8,
    pub decoded: Result<Move, Refusal>,
}

// For a player that keeps more of each node than the bus does: at which node `advance` reads and writes.
pub fn aim(n: u8, phase: Phase, pending: &[bool; 63], a: Action) -> Aimed
    ensures decoded_value { result.decoded ≡ glance n phase a }
    ensures node_value { result.node ≡ aimed n phase (mark pending.now) (glance n phase a) }
    ensures node_bound { result.node < 63 }
{
    let decoded = glance(n, phase, a);
    Aimed {
        node: aiming::aim(n, phase, pending, decoded),
        decoded,
    }
}
