// The types of the bench: document 01's packets, modes, signals, nodes and bus, its actions and reports.
// The charts (specs/) and the code of the other crates share them. All that runs here gives a refusal or a kind its number.
#![tactic(auto)]

ghost use Rattle.std.specs.Prelude.{◌≡◌};
ghost use Rattle.charts.specs.Numbers.{number_of};
ghost use Rattle.charts.specs.Kinds.{kind_number, Reads};

pub mod words;

// Why something is refused, in the order of the numbers. An action record is looked at by 2 to 5, 13, 15 and 6, a block by 8, 9, 1 and 11, a file's block by 10 before 11,
// a state that is handed in by 12; 7 is an action that is not open, 14 a search that is too deep.
#[derive(Clone, Copy, PartialEq, Eq)]
pub enum Refusal {
    WrongSize = 1,
    WrongKind,
    StrayField,
    WrongNode,
    WrongAddress,
    WrongAnswer,
    NotOpen,
    WrongLength,
    WrongCheck,
    WrongOrder,
    WrongCount,
    NotValid,
    WrongLabel,
    TooDeep,
    ToItself,
}

impl Refusal {
    // The number that is printed, 1 to 15.
    pub fn number(self) -> u8
        ensures { result ≡ number_of self }
    {
        self as u8
    }
}

// The kinds of actions, by the byte that a record has for each. (The record's own byte may be any: another one is refused.)
#[derive(Clone, Copy, PartialEq, Eq)]
pub enum Kind {
    Request = 1,
    Arbitrate,
    Respond,
    Clock,
    Pass,
    Lose,
    Change,
    Grant,
    Gap,
    Reset,
    Ask,
    Decide,
}

impl Kind {
    pub fn number(self) -> u8
        ensures { result ≡ kind_number self }
    {
        self as u8
    }
}

impl TryFrom<u8> for Kind {
    type Error = Refusal;

    ghost try_from_gives = { Reads };

    fn try_from(kind: u8) -> Result<Kind, Refusal> {
        match kind {
            1 => Ok(Kind::Request),
            2 => Ok(Kind::Arbitrate),
            3 => Ok(Kind::Respond),
            4 => Ok(Kind::Clock),
            5 => Ok(Kind::Pass),
            6 => Ok(Kind::Lose),
            7 => Ok(Kind::Change),
            8 => Ok(Kind::Grant),
            9 => Ok(Kind::Gap),
            10 => Ok(Kind::Reset),
            11 => Ok(Kind::Ask),
            12 => Ok(Kind::Decide),
            _ => Err(Refusal::WrongKind),
        }
    }
}

// What a Header signal carries, and what stays of it in packets, modes and reports: the header and the packet's transaction label, which
// "travels with the packet through buffer, sending and reception, on the bus inside the Header signal".
#[derive(Clone, Copy)]
pub struct Head {
    pub header: u32,
    pub label: u8,
}

// A packet: its address (63: all nodes), its header with its label, and its datum.
#[derive(Clone, Copy)]
pub struct Packet {
    pub to: u8,
    pub head: Head,
    pub datum: u32,
}

// A node's mode with what that mode remembers, in document 01's order, new modes last. AckEnd remembers "a if it was a good Ack", TailOwn and TailAll the datum if its
// check was good.
#[derive(Clone, Copy)]
pub enum Mode {
    Rest,
    AwaitAck,
    AckBody,
    AckEnd(Option<u8>),
    Opened,
    Addressed,
    HeadOwn,
    HeadAll,
    BodyOwn(Head),
    BodyAll(Head),
    TailOwn(Head, Option<u32>),
    TailAll(Head, Option<u32>),
    Wait,
    Owed,
    Sending(u8),
    Told,
    Answering,
    Acking { step: u8, ack: u8, hold: bool },
    Holding,
    Spurious,
    Listening,
    Asked,
}

// The modes in which a node reads a packet, by name: a drop names the one that the node left.
#[derive(Clone, Copy, PartialEq, Eq)]
pub enum Reading {
    Opened,
    Addressed,
    HeadOwn,
    HeadAll,
    BodyOwn,
    BodyAll,
    TailOwn,
    TailAll,
}

// A signal. The bool of Header, Data and Ack is its check: true for good.
#[derive(Clone, Copy)]
pub enum Signal {
    Start,
    End,
    Prefix,
    Gap,
    Dhead,
    Dest(u8),
    Header(Head, bool),
    Data(u32, bool),
    Ack(u8, bool),
}

// A node's record: its mode, "its buffer (one packet or empty)" and the packet it is sending.
#[derive(Clone, Copy)]
pub struct Node {
    pub mode: Mode,
    pub buffer: Option<Packet>,
    pub sending: Packet,
}

// What the bus is in.
#[derive(Clone, Copy)]
pub enum Phase {
    Idle,
    Busy,
    Delivering {
        sender: u8,
        signal: Signal,
        next: u8,
    },
    Granting,
    Gapping(u8),
}

// The bus: n nodes, its phase, the nodes' records, four marks for each node and one of its own: an acknowledgement was closed by a Prefix,
// and what its sender puts out next is concatenated to it.
#[derive(Clone, Copy)]
pub struct Bus {
    pub n: u8,
    pub phase: Phase,
    pub nodes: [Node; 63],
    pub won: [bool; 63],
    pub pending: [bool; 63],
    pub holder: [bool; 63],
    pub misled: [bool; 63],
    pub concatenated: bool,
}

// A node's record with its four marks: all that the bus keeps of one node.
#[derive(Clone, Copy)]
pub struct Cell {
    pub mode: Mode,
    pub buffer: Option<Packet>,
    pub sending: Packet,
    pub won: bool,
    pub pending: bool,
    pub holder: bool,
    pub misled: bool,
}

// A report with its node, or none. Sent, Acked and Miss end with the label of the packet that the node is sending; Good, Dcrc and Broad bear
// that of the header they read. Drop names the mode that the node left.
#[derive(Clone, Copy)]
pub enum Report {
    Silent,
    Won(u8),
    Lost(u8),
    Sent(u8, u8),
    Acked(u8, u8, u8),
    Miss(u8, u8),
    Drop(u8, Reading),
    Good(u8, Head, u32),
    Dcrc(u8, Head),
    Broad(u8, Head, u32),
}

// What a signal makes of a node: its next mode, its report, and whether it is entered as pending.
#[derive(Clone, Copy)]
pub struct Heard {
    pub mode: Mode,
    pub report: Report,
    pub pends: bool,
}

// A cell of the chart as a table: the next mode's place, the number of the report's first word, and whether a pending mark is made.
#[derive(Clone, Copy)]
pub struct Entry {
    pub place: u8,
    pub word: u8,
    pub pends: bool,
}

// What a node does when it is clocked: nothing, end a holding that nobody hears, or put out a signal and go to a mode with a report.
#[derive(Clone, Copy)]
pub enum Output {
    Nothing,
    Frees,
    Puts(Signal, Mode, Report),
}

// How a signal is carried to its next receiver: kinds 5, 6 and 7.
#[derive(Clone, Copy)]
pub enum Way {
    Pass,
    Lose,
    Change(u8),
}

// What arrives there: the way is not open, no signal, or a signal with whether it misleads the receiver.
#[derive(Clone, Copy)]
pub enum Arrival {
    Closed,
    Lost,
    Hears(Signal, bool),
}

// The marks that an action changes beyond its own node's: a Start clears the misled ones of all nodes, a reset the won ones;
// the Prefix that closes an acknowledgement sets the bus's own mark, and the Gap that makes the bus Idle clears it.
#[derive(Clone, Copy, PartialEq, Eq)]
pub enum Marking {
    Nothing,
    Misled,
    Won,
    Concatenated(bool),
}

// An action record as a run file has it. Byte 5 is the label; bytes 6 and 7 are its two zeros.
#[derive(Clone, Copy)]
pub struct Action {
    pub kind: u8,
    pub node: u8,
    pub address: u8,
    pub ack: u8,
    pub hold: u8,
    pub label: u8,
    pub byte6: u8,
    pub byte7: u8,
    pub header: u32,
    pub datum: u32,
}

// An action whose fields are in their ranges.
#[derive(Clone, Copy)]
pub enum Move {
    Request { node: u8, packet: Packet },
    Arbitrate(u8),
    Respond { node: u8, ack: u8, hold: bool },
    Clock(u8),
    Carry(Way),
    Grant,
    GapNext,
    Reset,
    Ask(u8),
    Decide(u8),
}

// What a step returns: its report or its refusal, and the bus, which a refusal leaves as it was.
#[derive(Clone, Copy)]
pub struct Played {
    pub report: Result<Report, Refusal>,
    pub bus: Bus,
}

// What a fresh bus is asked for returns: its refusal, if it is refused, and the bus.
#[derive(Clone, Copy)]
pub struct Begun {
    pub refusal: Option<Refusal>,
    pub bus: Bus,
}

// A user's settings in a load trial: its idle spell after a win in actions, the address that it sends to, the fillers before it answers, whether it holds,
// and which of the signals that come to it are lost (each so many-th, 0: none).
#[derive(Clone, Copy)]
pub struct User {
    pub spell: u8,
    pub address: u8,
    pub fillers: u8,
    pub hold: bool,
    pub period: u8,
}

// The settings of all nodes; those of nodes from n on are not read.
pub type Users = [User; 63];

// The four numbers that a trial keeps for a user: what is left of its spell, the signals counted towards the next loss, the fillers made for the answer that it owes,
// and its requests so far.
#[derive(Clone, Copy)]
pub struct Kept {
    pub left: u8,
    pub heard: u8,
    pub filled: u8,
    pub made: u16,
}

// What a trial counts: requests, wins, each kind of confirmation, drops.
#[derive(Clone, Copy)]
pub struct Tally {
    pub requests: u16,
    pub wins: u16,
    pub sent: u16,
    pub acks: u16,
    pub misses: u16,
    pub drops: u16,
}

// A report's kind: its first word.
#[derive(Clone, Copy, PartialEq, Eq)]
pub enum Word {
    Won,
    Lost,
    Sent,
    Ack,
    Miss,
    Drop,
    Good,
    Dcrc,
    Broad,
}

// What a route is to lead to: "a report kind with its node".
#[derive(Clone, Copy)]
pub struct Question {
    pub word: Word,
    pub node: u8,
}

// A route: how many records it has, and these. The other places hold records of zeros.
#[derive(Clone, Copy)]
pub struct Route {
    pub count: u8,
    pub actions: [Action; 6],
}

// What a search for a route answers: the route, if there is one, or why it is refused.
pub type Answer = Result<Option<Route>, Refusal>;
