// Modes: their places in the charts' list, what they remember, and the mode of a node that is granted the bus.
ghost use Rattle.std.specs.Prelude.{◌≡◌};
ghost use Rattle.charts.specs.Modes.{place_of, name_at, is_rest, is_holding, is_spurious, is_answering, is_acking, is_asked};
ghost use Rattle.charts.specs.Actions.{granted};
ghost use Rattle.link.specs.Reading.{remembered};

use charts::{Head, Mode, Reading};

// The places of the modes in the charts' list, the good one of two first, new modes last. They stay numbers: they index the table's cells, and `rules::rule` answers for every byte.
pub(crate) const REST: u8 = 0;

pub(crate) const AWAIT_ACK: u8 = 1;

pub(crate) const ACK_BODY: u8 = 2;

pub(crate) const ACK_GOOD: u8 = 3;

pub(crate) const ACK_NONE: u8 = 4;

pub(crate) const OPENED: u8 = 5;

pub(crate) const ADDRESSED: u8 = 6;

pub(crate) const HEAD_OWN: u8 = 7;

pub(crate) const HEAD_ALL: u8 = 8;

pub(crate) const BODY_OWN: u8 = 9;

pub(crate) const BODY_ALL: u8 = 10;

pub(crate) const TAIL_OWN_GOOD: u8 = 11;

pub(crate) const TAIL_OWN_BAD: u8 = 12;

pub(crate) const TAIL_ALL_GOOD: u8 = 13;

pub(crate) const TAIL_ALL_BAD: u8 = 14;

pub(crate) const WAIT: u8 = 15;

pub(crate) const OWED: u8 = 16;

pub(crate) const SENDING: u8 = 17;

pub(crate) const TOLD: u8 = 18;

pub(crate) const ANSWERING: u8 = 19;

pub(crate) const ACKING: u8 = 20;

pub(crate) const HOLDING: u8 = 21;

pub(crate) const SPURIOUS: u8 = 22;

pub(crate) const LISTENING: u8 = 23;

pub(crate) const ASKED: u8 = 24;

// The place of a mode.
pub(crate) fn place_of(mode: Mode) -> u8
    ensures { result ≡ place_of mode }
{
    match mode {
        Mode::Rest => REST,
        Mode::AwaitAck => AWAIT_ACK,
        Mode::AckBody => ACK_BODY,
        Mode::AckEnd(Some(_)) => ACK_GOOD,
        Mode::AckEnd(None) => ACK_NONE,
        Mode::Opened => OPENED,
        Mode::Addressed => ADDRESSED,
        Mode::HeadOwn => HEAD_OWN,
        Mode::HeadAll => HEAD_ALL,
        Mode::BodyOwn(_) => BODY_OWN,
        Mode::BodyAll(_) => BODY_ALL,
        Mode::TailOwn(_, Some(_)) => TAIL_OWN_GOOD,
        Mode::TailOwn(_, None) => TAIL_OWN_BAD,
        Mode::TailAll(_, Some(_)) => TAIL_ALL_GOOD,
        Mode::TailAll(_, None) => TAIL_ALL_BAD,
        Mode::Wait => WAIT,
        Mode::Owed => OWED,
        Mode::Sending(_) => SENDING,
        Mode::Told => TOLD,
        Mode::Answering => ANSWERING,
        Mode::Acking { .. } => ACKING,
        Mode::Holding => HOLDING,
        Mode::Spurious => SPURIOUS,
        Mode::Listening => LISTENING,
        Mode::Asked => ASKED,
    }
}

// The name of the mode at a place from Opened to TailAll, which says nothing of good or bad data.
#[tactic(auto, unfolding(charts::specs::Modes::name_at))]
pub(crate) fn name_at(place: u8) -> Reading
    ensures { result ≡ name_at place }
{
    match place {
        OPENED => Reading::Opened,
        ADDRESSED => Reading::Addressed,
        HEAD_OWN => Reading::HeadOwn,
        HEAD_ALL => Reading::HeadAll,
        BODY_OWN => Reading::BodyOwn,
        BODY_ALL => Reading::BodyAll,
        TAIL_OWN_GOOD | TAIL_OWN_BAD => Reading::TailOwn,
        _ => Reading::TailAll,
    }
}

pub fn is_rest(mode: Mode) -> bool
    ensures { result ≡ is_rest mode }
{
    matches!(mode, Mode::Rest)
}

pub fn is_answering(mode: Mode) -> bool
    ensures { result ≡ is_answering mode }
{
    matches!(mode, Mode::Answering)
}

pub fn is_acking(mode: Mode) -> bool
    ensures { result ≡ is_acking mode }
{
    matches!(mode, Mode::Acking { .. })
}

pub fn is_holding(mode: Mode) -> bool
    ensures { result ≡ is_holding mode }
{
    matches!(mode, Mode::Holding)
}

pub fn is_spurious(mode: Mode) -> bool
    ensures { result ≡ is_spurious mode }
{
    matches!(mode, Mode::Spurious)
}

pub fn is_asked(mode: Mode) -> bool
    ensures { result ≡ is_asked mode }
{
    matches!(mode, Mode::Asked)
}

// "Told → Answering, Owed → Spurious, another mode kept"
pub fn granted(mode: Mode) -> Mode
    ensures { result ≡ granted mode }
{
    match mode {
        Mode::Told => Mode::Answering,
        Mode::Owed => Mode::Spurious,
        _ => mode,
    }
}

// What a mode remembers of the signals that led to it: an acknowledgement, a header, a datum; 0 for what it does not.
#[derive(Clone, Copy)]
pub struct Kept {
    pub ack: u8,
    pub head: Head,
    pub datum: u32,
}

pub(crate) fn remembered(mode: Mode) -> Kept
    ensures { result ≡ remembered mode }
{
    let none = Kept {
        ack: 0,
        head: Head {
            header: 0,
            label: 0,
        },
        datum: 0,
    };
    match mode {
        Mode::AckEnd(seen) => Kept {
            ack: seen.unwrap_or(0),
            ..none
        },
        Mode::BodyOwn(head) | Mode::BodyAll(head) => Kept { head, ..none },
        Mode::TailOwn(head, d) | Mode::TailAll(head, d) => Kept {
            head,
            datum: d.unwrap_or(0),
            ..none
        },
        Mode::Acking { ack, .. } => Kept { ack, ..none },
        _ => none,
    }
}
