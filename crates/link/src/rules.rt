// The rules of the reception chart, by the places of the modes and the classes of the signals.
ghost use Rattle.std.specs.Prelude.{◌≡◌};
ghost use Rattle.charts.specs.Words.{silent, drop};
ghost use Rattle.charts.specs.Table.{entry};
ghost use Rattle.link.specs.Rules.{tells};

use crate::{modes, signals};
use charts::{Entry, words};

fn tells(place: u8, word: u8) -> Entry
    ensures { result ≡ tells place word }
{
    Entry {
        place,
        word,
        pends: false,
    }
}

fn goes(place: u8) -> Entry
    ensures { result ≡ tells place silent }
{
    tells(place, words::SILENT)
}

fn drops(place: u8) -> Entry
    ensures { result ≡ tells place drop }
{
    tells(place, words::DROP)
}

// The cell of a mode's place and a signal's class. Start, End and Prefix are the line signals other than Gap.
pub fn rule(place: u8, class: u8) -> Entry
    ensures { result ≡ entry place class }
{
    match place {
        modes::REST => match class {
            signals::START => goes(modes::OPENED),
            _ => goes(modes::REST),
        },
        modes::AWAIT_ACK => match class {
            signals::PREFIX => goes(modes::AWAIT_ACK),
            signals::START => goes(modes::ACK_BODY),
            signals::GAP => tells(modes::REST, words::MISS),
            _ => tells(modes::WAIT, words::MISS),
        },
        modes::ACK_BODY => match class {
            signals::GAP => tells(modes::REST, words::MISS),
            signals::START | signals::END | signals::PREFIX => tells(modes::WAIT, words::MISS),
            signals::ACK_GOOD => goes(modes::ACK_GOOD),
            _ => goes(modes::ACK_NONE),
        },
        modes::ACK_GOOD => match class {
            signals::END => tells(modes::WAIT, words::ACK),
            signals::PREFIX => tells(modes::LISTENING, words::ACK),
            signals::GAP => tells(modes::REST, words::MISS),
            _ => tells(modes::WAIT, words::MISS),
        },
        modes::ACK_NONE => match class {
            signals::GAP => tells(modes::REST, words::MISS),
            _ => tells(modes::WAIT, words::MISS),
        },
        modes::OPENED => match class {
            signals::GAP => goes(modes::REST),
            signals::START | signals::END | signals::PREFIX => drops(modes::WAIT),
            _ => goes(modes::ADDRESSED),
        },
        modes::ADDRESSED => match class {
            signals::DEST_OWN => Entry {
                place: modes::HEAD_OWN,
                word: words::SILENT,
                pends: true,
            },
            signals::DEST_ALL => goes(modes::HEAD_ALL),
            signals::DEST_OTHER => goes(modes::WAIT),
            signals::GAP => goes(modes::REST),
            _ => drops(modes::WAIT),
        },
        modes::HEAD_OWN => match class {
            signals::HEADER_GOOD => goes(modes::BODY_OWN),
            _ => drops(modes::OWED),
        },
        modes::HEAD_ALL => match class {
            signals::HEADER_GOOD => goes(modes::BODY_ALL),
            signals::GAP => goes(modes::REST),
            _ => drops(modes::WAIT),
        },
        modes::BODY_OWN => match class {
            signals::DATA_GOOD => goes(modes::TAIL_OWN_GOOD),
            signals::DATA_BAD => goes(modes::TAIL_OWN_BAD),
            _ => drops(modes::OWED),
        },
        modes::BODY_ALL => match class {
            signals::DATA_GOOD => goes(modes::TAIL_ALL_GOOD),
            signals::DATA_BAD => goes(modes::TAIL_ALL_BAD),
            signals::GAP => goes(modes::REST),
            _ => drops(modes::WAIT),
        },
        modes::TAIL_OWN_GOOD => match class {
            signals::END | signals::PREFIX => tells(modes::TOLD, words::GOOD),
            _ => drops(modes::OWED),
        },
        modes::TAIL_OWN_BAD => match class {
            signals::END | signals::PREFIX => tells(modes::TOLD, words::DCRC),
            _ => drops(modes::OWED),
        },
        modes::TAIL_ALL_GOOD => match class {
            signals::END | signals::PREFIX => tells(modes::REST, words::BROAD),
            signals::GAP => goes(modes::REST),
            _ => drops(modes::WAIT),
        },
        modes::TAIL_ALL_BAD => match class {
            signals::END | signals::PREFIX => drops(modes::REST),
            signals::GAP => goes(modes::REST),
            _ => drops(modes::WAIT),
        },
        modes::WAIT => match class {
            signals::GAP => goes(modes::REST),
            _ => goes(modes::WAIT),
        },
        modes::OWED
        | modes::SENDING
        | modes::TOLD
        | modes::ANSWERING
        | modes::ACKING
        | modes::HOLDING
        | modes::SPURIOUS
        | modes::ASKED => goes(place),
        modes::LISTENING => match class {
            signals::START => goes(modes::OPENED),
            signals::PREFIX => goes(modes::LISTENING),
            signals::GAP => goes(modes::REST),
            _ => goes(modes::WAIT),
        },
        _ => goes(modes::SPURIOUS),
    }
}
