// One node's link layer: what it does with a signal, what it puts out when it is clocked, and what arrives of a signal on its way to it.
#![tactic(auto)]

ghost use Rattle.std.specs.Prelude.{◌≡◌};
ghost use Rattle.charts.specs.Outputs.{output, puts, sends, acks};
ghost use Rattle.charts.specs.Arrivals.{arrives, passed, lost, changed};
ghost use Rattle.link.specs.Reading.{enters, says, heard_by};

use charts::{Arrival, Heard, Mode, Output, Packet, Report, Signal, Way, words};
use modes::Kept;

pub mod modes;
pub mod rules;
pub mod signals;
pub mod table;

// The mode at a place that a node in a mode, with what it has kept, comes to by a signal, with what it remembers from then on.
fn enter(place: u8, mode: Mode, kept: Kept, s: Signal) -> Mode
    ensures { result ≡ enters place mode kept s }
{
    match place {
        modes::REST => Mode::Rest,
        modes::ACK_BODY => Mode::AckBody,
        modes::ACK_GOOD => Mode::AckEnd(Some(signals::ack_of(s))),
        modes::ACK_NONE => Mode::AckEnd(None),
        modes::OPENED => Mode::Opened,
        modes::ADDRESSED => Mode::Addressed,
        modes::HEAD_OWN => Mode::HeadOwn,
        modes::HEAD_ALL => Mode::HeadAll,
        modes::BODY_OWN => Mode::BodyOwn(signals::head_of(s)),
        modes::BODY_ALL => Mode::BodyAll(signals::head_of(s)),
        modes::TAIL_OWN_GOOD => Mode::TailOwn(kept.head, Some(signals::datum_of(s))),
        modes::TAIL_OWN_BAD => Mode::TailOwn(kept.head, None),
        modes::TAIL_ALL_GOOD => Mode::TailAll(kept.head, Some(signals::datum_of(s))),
        modes::TAIL_ALL_BAD => Mode::TailAll(kept.head, None),
        modes::WAIT => Mode::Wait,
        modes::OWED => Mode::Owed,
        modes::TOLD => Mode::Told,
        modes::LISTENING => Mode::Listening,
        _ => mode,
    }
}

// (The word stays a number: a cell of the table holds it, and `table::word_in` takes it out.)
// The report with that first word of node `me`, of the label of the packet that it is sending, of the place of its mode and of what that has kept.
fn say(word: u8, me: u8, label: u8, place: u8, kept: Kept) -> Report
    ensures { result ≡ says word me label place kept }
{
    match word {
        words::ACK => Report::Acked(me, kept.ack, label),
        words::MISS => Report::Miss(me, label),
        words::DROP => Report::Drop(me, modes::name_at(place)),
        words::GOOD => Report::Good(me, kept.head, kept.datum),
        words::DCRC => Report::Dcrc(me, kept.head),
        words::BROAD => Report::Broad(me, kept.head, kept.datum),
        _ => Report::Silent,
    }
}

// What node `me` in a mode does with a signal, by a table of the chart: it looks its cell up, and adds what modes remember, the label of the
// packet that it is sending, and the name of the mode that it leaves.
// With the chart's own table this is what the chart says (proofs/Reading.antt).
#[tactic(auto, unfolding(crate::specs::Reading::heard_by))]
pub fn receive(table: &[u16; 350], me: u8, label: u8, mode: Mode, s: Signal) -> Heard
    ensures { result ≡ heard_by table.now me label mode s }
{
    let place = modes::place_of(mode);
    let cell = table::cell_at(table, place, signals::class_of(me, s));
    if cell == place as u16 {
        return Heard {
            mode,
            report: Report::Silent,
            pends: false,
        };
    }
    let kept = modes::remembered(mode);
    Heard {
        mode: enter(table::place_in(cell), mode, kept, s),
        report: say(table::word_in(cell), me, label, place, kept),
        pends: table::pends_in(cell),
    }
}

fn puts(s: Signal, mode: Mode) -> Output
    ensures { result ≡ puts s mode }
{
    Output::Puts(s, mode, Report::Silent)
}

// What node i in Sending puts out at a step.
fn send(i: u8, step: u8, p: Packet) -> Output
    ensures { result ≡ sends i step p }
{
    match step {
        0 => puts(Signal::Start, Mode::Sending(1)),
        1 => puts(Signal::Dhead, Mode::Sending(2)),
        2 => puts(Signal::Dest(p.to), Mode::Sending(3)),
        3 => puts(Signal::Header(p.head, true), Mode::Sending(4)),
        4 => puts(Signal::Data(p.datum, true), Mode::Sending(5)),
        _ if p.to == 63 => Output::Puts(Signal::End, Mode::Rest, Report::Sent(i, p.head.label)),
        _ => puts(Signal::End, Mode::AwaitAck),
    }
}

// What a node in Acking puts out at a step.
fn acknowledge(step: u8, ack: u8, hold: bool) -> Output
    ensures { result ≡ acks step ack hold }
{
    match step {
        0 => puts(Signal::Start, Mode::Acking { step: 1, ack, hold }),
        1 => puts(Signal::Ack(ack, true), Mode::Acking { step: 2, ack, hold }),
        _ if hold => puts(Signal::Prefix, Mode::Holding),
        _ => puts(Signal::End, Mode::Rest),
    }
}

// What node i puts out when it is clocked.
#[tactic(auto, unfolding(charts::specs::Outputs::output))]
pub fn emit(i: u8, mode: Mode, sending: Packet) -> Output
    ensures { result ≡ output i mode sending }
{
    match mode {
        Mode::Sending(step) => send(i, step, sending),
        Mode::Answering | Mode::Holding => puts(Signal::Prefix, mode),
        Mode::Acking { step, ack, hold } => acknowledge(step, ack, hold),
        Mode::Spurious => Output::Frees,
        _ => Output::Nothing,
    }
}

// "A Header reaches a misled node with a bad check."
fn pass(misled: bool, s: Signal) -> Signal
    ensures { result ≡ passed misled s }
{
    match s {
        Signal::Header(h, good) => Signal::Header(h, good && !misled),
        _ => s,
    }
}

// "it gets nothing. Only for Header, Data, Ack."
fn lose(s: Signal) -> Arrival
    ensures { result ≡ lost s }
{
    match s {
        Signal::Header(..) | Signal::Data(..) | Signal::Ack(..) => Arrival::Lost,
        _ => Arrival::Closed,
    }
}

// A Dest arrives as another address; Header, Data and Ack arrive with a bad check.
fn change(address: u8, s: Signal) -> Arrival
    ensures { result ≡ changed address s }
{
    match s {
        Signal::Dest(a) if a != address => Arrival::Hears(Signal::Dest(address), true),
        Signal::Header(h, _) if address == 0 => Arrival::Hears(Signal::Header(h, false), false),
        Signal::Data(d, _) if address == 0 => Arrival::Hears(Signal::Data(d, false), false),
        Signal::Ack(a, _) if address == 0 => Arrival::Hears(Signal::Ack(a, false), false),
        _ => Arrival::Closed,
    }
}

// What arrives of a signal at a node with its misled mark: kinds 5, 6 and 7.
#[tactic(auto, unfolding(charts::specs::Arrivals::arrives))]
pub fn arrive(way: Way, misled: bool, s: Signal) -> Arrival
    ensures { result ≡ arrives way misled s }
{
    match way {
        Way::Pass => Arrival::Hears(pass(misled, s), false),
        Way::Lose => lose(s),
        Way::Change(address) => change(address, s),
    }
}
