// Signals: the class in which a node meets one, and what each carries.
ghost use Rattle.std.specs.Prelude.{◌≡◌};
ghost use Rattle.charts.specs.Signals.{class_of, kind_of, head_of, datum_of, ack_of, is_start, is_end, is_prefix, is_checked};

use charts::{Head, Signal};

// The classes in which a node meets a signal, in the order of the charts. They stay numbers: they index the table's cells, and `rules::rule` answers for every byte.
pub(crate) const START: u8 = 0;

pub(crate) const END: u8 = 1;

pub(crate) const PREFIX: u8 = 2;

pub(crate) const GAP: u8 = 3;

pub(crate) const DHEAD: u8 = 4;

pub(crate) const DEST_OWN: u8 = 5;

pub(crate) const DEST_ALL: u8 = 6;

pub(crate) const DEST_OTHER: u8 = 7;

pub(crate) const HEADER_GOOD: u8 = 8;

pub(crate) const HEADER_BAD: u8 = 9;

pub(crate) const DATA_GOOD: u8 = 10;

pub(crate) const DATA_BAD: u8 = 11;

pub(crate) const ACK_GOOD: u8 = 12;

pub(crate) const ACK_BAD: u8 = 13;

// The class of a signal as node `me` meets it.
pub(crate) fn class_of(me: u8, s: Signal) -> u8
    ensures { result ≡ class_of me s }
{
    match s {
        Signal::Start => START,
        Signal::End => END,
        Signal::Prefix => PREFIX,
        Signal::Gap => GAP,
        Signal::Dhead => DHEAD,
        Signal::Dest(a) if a == me => DEST_OWN,
        Signal::Dest(63) => DEST_ALL,
        Signal::Dest(_) => DEST_OTHER,
        Signal::Header(_, true) => HEADER_GOOD,
        Signal::Header(_, false) => HEADER_BAD,
        Signal::Data(_, true) => DATA_GOOD,
        Signal::Data(_, false) => DATA_BAD,
        Signal::Ack(_, true) => ACK_GOOD,
        Signal::Ack(_, false) => ACK_BAD,
    }
}

// What a Header carries, else 0.
pub(crate) fn head_of(s: Signal) -> Head
    ensures { result ≡ head_of s }
{
    match s {
        Signal::Header(h, _) => h,
        _ => Head {
            header: 0,
            label: 0,
        },
    }
}

// What Data carries, else 0.
pub(crate) fn datum_of(s: Signal) -> u32
    ensures { result ≡ datum_of s }
{
    match s {
        Signal::Data(d, _) => d,
        _ => 0,
    }
}

// What an Ack carries, else 0.
pub(crate) fn ack_of(s: Signal) -> u8
    ensures { result ≡ ack_of s }
{
    match s {
        Signal::Ack(a, _) => a,
        _ => 0,
    }
}

pub fn is_start(s: Signal) -> bool
    ensures { result ≡ is_start s }
{
    matches!(s, Signal::Start)
}

pub fn is_end(s: Signal) -> bool
    ensures { result ≡ is_end s }
{
    matches!(s, Signal::End)
}

pub fn is_prefix(s: Signal) -> bool
    ensures { result ≡ is_prefix s }
{
    matches!(s, Signal::Prefix)
}

// Header, Data or Ack: a signal that bears a check.
pub fn is_checked(s: Signal) -> bool
    ensures { result ≡ is_checked s }
{
    matches!(s, Signal::Header(..) | Signal::Data(..) | Signal::Ack(..))
}
