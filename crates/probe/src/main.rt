// Questions about states handed in, as bytes on standard input (tests/README.md), 384 bytes each; the answers on standard output, an empty line after each.
#![tactic(auto)]

ghost use Rattle.std.specs.Prelude.{◌≡◌, ◌≤◌, length};

use charts::{Bus, Head, Mode, Node, Packet, Phase, Question, Signal, Word};
use std::io::{Read, Write};
use stream::Failure;

// A head of 24 bytes, and 9 nodes of 40 bytes.
const SIZE: usize = 384;

const HEAD: usize = 24;

const NODE: usize = 40;

// The bytes of a part, and 0 beyond them.
fn byte(part: &[u8], i: usize) -> u8 {
    part.get(i).copied().unwrap_or(0)
}

fn flag(part: &[u8], i: usize) -> bool {
    byte(part, i) != 0
}

fn number(part: &[u8], i: usize) -> u32
    requires { i ≤ 384 }
{
    u32::from_le_bytes([
        byte(part, i),
        byte(part, i + 1),
        byte(part, i + 2),
        byte(part, i + 3),
    ])
}

fn head_of(label: u8, header: u32) -> Head {
    Head { header, label }
}

fn packet_of(to: u8, label: u8, header: u32, datum: u32) -> Packet {
    Packet {
        to,
        head: head_of(label, header),
        datum,
    }
}

// The mode of a node's part, by its place.
fn mode_of(part: &[u8]) -> Mode {
    let step = byte(part, 1);
    let ack = byte(part, 2);
    let good = flag(part, 3);
    let head = head_of(byte(part, 4), number(part, 16));
    let datum = good.then_some(number(part, 20));
    match byte(part, 0) {
        0 => Mode::Rest,
        1 => Mode::AwaitAck,
        2 => Mode::AckBody,
        3 => Mode::AckEnd(good.then_some(ack)),
        4 => Mode::Opened,
        5 => Mode::Addressed,
        6 => Mode::HeadOwn,
        7 => Mode::HeadAll,
        8 => Mode::BodyOwn(head),
        9 => Mode::BodyAll(head),
        10 => Mode::TailOwn(head, datum),
        11 => Mode::TailAll(head, datum),
        12 => Mode::Wait,
        13 => Mode::Owed,
        14 => Mode::Sending(step),
        15 => Mode::Told,
        16 => Mode::Answering,
        17 => Mode::Acking {
            step,
            ack,
            hold: good,
        },
        18 => Mode::Holding,
        19 => Mode::Spurious,
        20 => Mode::Listening,
        _ => Mode::Asked,
    }
}

fn node_of(part: &[u8]) -> Node {
    Node {
        mode: mode_of(part),
        buffer: flag(part, 9).then_some(packet_of(
            byte(part, 10),
            byte(part, 11),
            number(part, 24),
            number(part, 28),
        )),
        sending: packet_of(
            byte(part, 12),
            byte(part, 13),
            number(part, 32),
            number(part, 36),
        ),
    }
}

// The signal under way.
fn signal_of(part: &[u8]) -> Signal {
    let good = flag(part, 5);
    let small = byte(part, 6);
    let large = number(part, 8);
    match byte(part, 4) {
        0 => Signal::Start,
        1 => Signal::End,
        2 => Signal::Prefix,
        3 => Signal::Gap,
        4 => Signal::Dhead,
        5 => Signal::Dest(small),
        6 => Signal::Header(head_of(small, large), good),
        7 => Signal::Data(large, good),
        _ => Signal::Ack(small, good),
    }
}

fn phase_of(part: &[u8]) -> Phase {
    match byte(part, 1) {
        0 => Phase::Idle,
        1 => Phase::Busy,
        2 => Phase::Delivering {
            sender: byte(part, 2),
            signal: signal_of(part),
            next: byte(part, 3),
        },
        3 => Phase::Granting,
        _ => Phase::Gapping(byte(part, 3)),
    }
}

// The state of a question. Nodes from 9 on are as on a fresh bus.
fn bus_of(question: &[u8]) -> Bus
    requires { length question.now ≡ 384 }
{
    let mut bus = bus::fresh(63).bus;
    for (k, part) in question[HEAD..].chunks_exact(NODE).enumerate() {
        bus.nodes[k] = node_of(part);
        bus.won[k] = flag(part, 5);
        bus.pending[k] = flag(part, 6);
        bus.holder[k] = flag(part, 7);
        bus.misled[k] = flag(part, 8);
    }
    Bus {
        n: byte(question, 0),
        phase: phase_of(question),
        concatenated: flag(question, 7),
        ..bus
    }
}

fn word_of(place: u8) -> Word {
    match place {
        1 => Word::Won,
        2 => Word::Lost,
        3 => Word::Sent,
        4 => Word::Ack,
        5 => Word::Miss,
        6 => Word::Drop,
        7 => Word::Good,
        8 => Word::Dcrc,
        _ => Word::Broad,
    }
}

// Answers a question.
fn answer<W: Write>(writer: &mut W, question: &[u8]) -> Result<(), Failure>
    requires { length question.now ≡ 384 }
{
    let asked = Question {
        word: word_of(byte(question, 12)),
        node: byte(question, 13),
    };
    let found = routes::find(bus_of(question), asked, byte(question, 14));
    let mut text = [0u8; 512];
    let end = answering::put_answer(&mut text, 0, found.map_err(|refusal| refusal.number()));
    let end = transcript::put_word(&mut text, end, b"\n");
    writer.write_all(&text[..end]).map_err(Failure::Output)
}

// Answers questions up to one that is not whole; a read that fails ends them too. A proved loop has to end, so it has as many turns as no input uses up.
fn run<R: Read, W: Write>(reader: &mut R, writer: &mut W) -> Result<(), Failure> {
    let mut question = [0u8; SIZE];
    for _ in 0..u64::MAX {
        if !matches!(stream::fill(reader, &mut question), Ok(SIZE)) {
            break;
        }
        answer(writer, &question)?;
    }
    Ok(())
}

fn main(rt: HostRuntime) {
    if let Err(failure) = run(&mut rt.stdin(), &mut rt.stdout()) {
        failure.tell(&rt.stderr(), "probe");
    }
}
