// An action record: its 16 bytes ("Run files"), and what the numbers 2 to 5, 13, 15 and 6 make of it.
#![tactic(auto)]

ghost use Rattle.std.specs.Prelude.{◌≡◌, true, cond, ◌&&◌, ◌||◌, [], ◌∷◌, ◌+◌, ◌≤◌, length, eqb};
ghost use Rattle.charts.specs.Records.{names_node, names_address, clean, named, is_address, is_own, is_label, move_of, read};
ghost use Rattle.charts.specs.Kinds.{kind_number};
ghost use Rattle.charts.specs.Valid.{is_size};
ghost use Rattle.charts.specs.Layout.{little, value, bytes_of, action_at};
ghost use Rattle.record.specs.Bytes.{has_room, put_at};

use charts::{Action, Head, Kind, Move, Packet, Refusal, Way};

// Whether a bus may have so many nodes.
pub fn is_size(n: u8) -> bool
    ensures { result ≡ is_size n }
{
    1 < n && n < 64
}

fn names_node(kind: Kind) -> bool
    ensures { result ≡ names_node (kind_number kind) }
{
    !matches!(
        kind,
        Kind::Pass | Kind::Lose | Kind::Change | Kind::Grant | Kind::Gap | Kind::Reset
    )
}

fn names_address(kind: Kind) -> bool
    ensures { result ≡ names_address (kind_number kind) }
{
    matches!(kind, Kind::Request | Kind::Change)
}

fn has_no_answer(a: Action) -> bool
    ensures { result ≡ (eqb a.ack 0 && eqb a.hold 0) }
{
    a.ack == 0 && a.hold == 0
}

fn has_no_packet(a: Action) -> bool
    ensures { result ≡ (eqb a.label 0 && (eqb a.header 0 && eqb a.datum 0)) }
{
    a.label == 0 && a.header == 0 && a.datum == 0
}

// Whether the fields that the kind doesn't name, and the record's two zeros, are 0; else it is 3.
// Kind by kind: most kinds name little, and then few tests are left.
#[tactic(auto, unfolding(charts::specs::Records::clean))]
fn is_clean(kind: Kind, a: Action) -> bool
    requires { kind_number kind ≡ a.kind }
    ensures { result ≡ clean a }
{
    if a.byte6 != 0 || a.byte7 != 0 {
        return false;
    }
    match kind {
        Kind::Request => has_no_answer(a),
        Kind::Respond => has_no_packet(a) && a.address == 0,
        Kind::Change => has_no_packet(a) && a.node == 0 && has_no_answer(a),
        _ => {
            has_no_packet(a)
                && a.address == 0
                && (names_node(kind) || a.node == 0)
                && has_no_answer(a)
        }
    }
}

// An address "neither below n nor 63" is 5.
pub fn is_address(n: u8, address: u8) -> bool
    ensures { result ≡ is_address n address }
{
    address < n || address == 63
}

// A request of a node to its own number is 15.
pub fn is_own(node: u8, address: u8) -> bool
    ensures { result ≡ is_own node address }
{
    address == node
}

// "label over 63" is 13.
pub fn is_label(label: u8) -> bool
    ensures { result ≡ is_label label }
{
    label < 64
}

#[tactic(auto, unfolding(charts::specs::Records::move_of))]
fn move_of(kind: Kind, a: Action) -> Move
    requires { kind_number kind ≡ a.kind }
    ensures { result ≡ move_of a }
{
    match kind {
        Kind::Request => Move::Request {
            node: a.node,
            packet: Packet {
                to: a.address,
                head: Head {
                    header: a.header,
                    label: a.label,
                },
                datum: a.datum,
            },
        },
        Kind::Arbitrate => Move::Arbitrate(a.node),
        Kind::Respond => Move::Respond {
            node: a.node,
            ack: a.ack,
            hold: a.hold == 1,
        },
        Kind::Clock => Move::Clock(a.node),
        Kind::Pass => Move::Carry(Way::Pass),
        Kind::Lose => Move::Carry(Way::Lose),
        Kind::Change => Move::Carry(Way::Change(a.address)),
        Kind::Grant => Move::Grant,
        Kind::Gap => Move::GapNext,
        Kind::Reset => Move::Reset,
        Kind::Ask => Move::Ask(a.node),
        Kind::Decide => Move::Decide(a.node),
    }
}

// An action record looked at by 2 to 5, 13, 15 and 6, in that order.
#[tactic(auto, unfolding(charts::specs::Records::read))]
pub fn decode(n: u8, a: Action) -> Result<Move, Refusal>
    ensures { result ≡ read n a }
{
    let kind = Kind::try_from(a.kind)?;
    if !is_clean(kind, a) {
        return Err(Refusal::StrayField);
    }
    if names_node(kind) && !(a.node < n) {
        return Err(Refusal::WrongNode);
    }
    if names_address(kind) && !is_address(n, a.address) {
        return Err(Refusal::WrongAddress);
    }
    if kind == Kind::Request {
        if !is_label(a.label) {
            return Err(Refusal::WrongLabel);
        }
        if is_own(a.node, a.address) {
            return Err(Refusal::ToItself);
        }
    }
    if !(a.ack < 16 && a.hold < 2) {
        return Err(Refusal::WrongAnswer);
    }
    Ok(move_of(kind, a))
}

// A record that names at most a node and an address.
pub fn named(kind: u8, node: u8, address: u8) -> Action
    ensures { result ≡ named kind node address }
{
    Action {
        kind,
        node,
        address,
        ack: 0,
        hold: 0,
        label: 0,
        byte6: 0,
        byte7: 0,
        header: 0,
        datum: 0,
    }
}

// The number that four bytes are, the lowest first.
pub fn number_of(a: u8, b: u8, c: u8, d: u8) -> u32
    ensures { result ≡ value (a ∷ b ∷ c ∷ d ∷ []) }
{
    u32::from_le_bytes([a, b, c, d])
}

// The record at the start of a part of a block. A part of less than 16 bytes holds none: the answer is then the record of zeros, which is refused by 2.
#[tactic(auto, unfolding(charts::specs::Layout::action_at))]
pub fn read_action(part: &[u8]) -> Action
    ensures { result ≡ action_at part.now }
{
    if part.len() < 16 {
        return named(0, 0, 0);
    }
    Action {
        kind: part[0],
        node: part[1],
        address: part[2],
        ack: part[3],
        hold: part[4],
        label: part[5],
        byte6: part[6],
        byte7: part[7],
        header: number_of(part[8], part[9], part[10], part[11]),
        datum: number_of(part[12], part[13], part[14], part[15]),
    }
}

// Whether `count` bytes have room in `size` bytes from place `at` on.
pub fn has_room(size: usize, at: usize, count: usize) -> bool
    ensures value { result ≡ has_room size at count }
    ensures count_bound { result ≡ true → at + count ≤ size }
{
    count <= size && at <= size - count
}

// A record's 16 bytes.
fn bytes_of(a: Action) -> [u8; 16]
    ensures { result ≡ bytes_of a }
{
    let [h0, h1, h2, h3] = a.header.to_le_bytes();
    let [d0, d1, d2, d3] = a.datum.to_le_bytes();
    [
        a.kind, a.node, a.address, a.ack, a.hold, a.label, a.byte6, a.byte7, h0, h1, h2, h3, d0,
        d1, d2, d3,
    ]
}

// Writes a record's 16 bytes at a place and answers the place after them; where they have no room, it writes nothing and answers the place itself.
pub fn write_action(out: &mut [u8], at: usize, a: Action) -> usize
    ensures value { result ≡ cond (has_room (length out.old) at 16) (at + 16) at }
    ensures out_after { out.new ≡ put_at out.old at (bytes_of a) }
{
    if !has_room(out.len(), at, 16) {
        return at;
    }
    out[at..at + 16].copy_from_slice(&bytes_of(a));
    at + 16
}
