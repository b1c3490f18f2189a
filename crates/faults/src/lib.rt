// What is wrong in a text, as a line with its cause, put into a buffer that the caller lends, from a place on.
#![tactic(auto, using(transcript::proofs::Writes::pieces))]

mod words;

ghost use Rattle.std.specs.Prelude.{◌≡◌, ◌+◌, ◌≤◌};
ghost use Rattle.transcript.specs.Room.{end_in, put_in};
ghost use Rattle.faults.specs.Faults.{longest, fault_line};

use transcript::writer::Line;

// What is wrong in a line of a text or in a text. A refusal has its number.
#[derive(Clone, Copy, PartialEq, Eq)]
pub enum Fault {
    UnknownWord,
    NotNumber,
    TooLarge,
    MissingField,
    ExtraField,
    NoRepeat,
    LongLine,
    NodesMissing,
    NodesAgain,
    NoUser,
    NoAction,
    TooMany,
    NoQuestion,
    AfterQuestion,
    Refused(u8),
}

// What more can be said of a fault, with a part of its line beside it.
#[derive(Clone, Copy, PartialEq, Eq)]
pub enum Cause {
    // Nothing.
    Plain,
    // The word is the cause.
    Quoted,
    // The word and its field: of a run or a question the name of the line's first word (an action's kind, 13 for `nodes`, 23 for `find`) and the word's place in
    // the line (the first word has 0, and so has what follows a `*`); of settings the name that stands before the word, and 1.
    Field(u8, u8),
    // The same, with the largest number that the field takes.
    Large(u8, u8),
    // The field that is missing.
    Missing(u8, u8),
    // No such number of nodes.
    Size,
    // No such node among n.
    Node(u8, u8),
    // No such address among n.
    Address(u8, u8),
    // No such label.
    Label(u8),
    // A node that would send to itself.
    Own(u8),
    // No such acknowledgement.
    Ack(u8),
    // An action that is not open.
    Closed,
    // A search too deep, or on too many nodes.
    Depth,
}

const LONGEST: usize = 512;

// The line of a fault. `word` is the part of the text's line that the cause shows. Where fewer than 512 bytes are left nothing is put.
pub fn put_fault(
    out: &mut [u8],
    at: usize,
    number: u64,
    fault: Fault,
    cause: Cause,
    word: &[u8],
) -> usize
    ensures upper_bound { result ≤ at + longest }
    ensures value { result ≡ end_in longest out.old at (fault_line number fault cause word.now) }
    ensures out_after { out.new ≡ put_in longest out.old at (fault_line number fault cause word.now) }
{
    if !transcript::has_room(out.len(), at, LONGEST) {
        return at;
    }
    let mut line = Line::new(out, at);
    words::put_fault(&mut line, number, fault, cause, word);
    line.end()
}
