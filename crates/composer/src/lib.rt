// Composes a run file from the lines of a text, one block at a time.
#![tactic(auto)]

ghost use Rattle.std.specs.Prelude.{◌≡◌, ◌≤◌, Result, replicate};
ghost use Rattle.charts.specs.Records.{blank};
ghost use Rattle.composer.specs.Composer.{stopped, nodes_taken, action_taken, line_taken, feed_of, quiet};
ghost use Rattle.composer.specs.Composer.{flush_of, held_after, put_of, put_held, used_by, finish_of, finish_held, start_of};

use charts::Action;
use faults::Fault;
use notation::{Line, Text};

const BLOCKS: u64 = 4294967296;

// The composer between two calls: the fault that has stopped it, the line last fed, n (0 before the `nodes` line), how many blocks are written, the records of
// the block under way, and the action under way with how often it is still to be put.
#[derive(Clone, Copy)]
pub struct Composer {
    pub fault: Option<Fault>,
    pub line: u64,
    pub n: u8,
    pub blocks: u64,
    pub count: u8,
    pub records: [u8; 496],
    pub action: Action,
    pub left: u32,
}

// A composer, and whether a block was written.
#[derive(Clone, Copy)]
pub struct Wrote {
    pub composer: Composer,
    pub written: bool,
}

// The composer before a text.
#[tactic(auto, unfolding(charts::specs::Layout::action_at))]
pub fn start() -> Composer
    ensures { result ≡ start_of (replicate 496 0) blank }
{
    Composer {
        fault: None,
        line: 0,
        n: 0,
        blocks: 0,
        count: 0,
        records: [0u8; 496],
        action: record::read_action(&[]),
        left: 0,
    }
}

fn stop(c: Composer, fault: Fault) -> Composer
    ensures { result ≡ stopped c fault }
{
    Composer {
        fault: Some(fault),
        ..c
    }
}

fn quiet(c: Composer) -> Wrote
    ensures { result ≡ quiet c }
{
    Wrote {
        composer: c,
        written: false,
    }
}

#[tactic(auto, unfolding(crate::specs::Composer::nodes_taken))]
fn take_nodes(c: Composer, n: u8) -> Composer
    ensures { result ≡ nodes_taken c n }
{
    match notation::nodes_stage(c.n, n) {
        Ok(()) => Composer { n, ..c },
        Err(fault) => stop(c, fault),
    }
}

#[tactic(auto, unfolding(crate::specs::Composer::action_taken))]
fn take_action(c: Composer, a: Action, k: u32) -> Composer
    ensures { result ≡ action_taken c a k }
{
    if c.n == 0 {
        return stop(c, Fault::NodesMissing);
    }
    match record::decode(c.n, a) {
        Ok(_) => Composer {
            action: a,
            left: k,
            ..c
        },
        Err(refusal) => stop(c, Fault::Refused(refusal.number())),
    }
}

#[tactic(auto, unfolding(crate::specs::Composer::line_taken))]
fn take_line(c: Composer, said: Result<Line, Fault>) -> Composer
    ensures { result ≡ line_taken c said }
{
    match said {
        Ok(Line::Blank) => c,
        Ok(Line::Nodes(n)) => take_nodes(c, n),
        Ok(Line::Acts(a, k)) => take_action(c, a, k),
        Ok(_) => stop(c, Fault::UnknownWord),
        Err(fault) => stop(c, fault),
    }
}

// Takes a line of the text, without its newline. A composer that has stopped, or has still an action to put, takes none.
#[tactic(auto, unfolding(crate::specs::Composer::feed_of))]
pub fn feed(c: Composer, line: &[u8]) -> Composer
    ensures { result ≡ feed_of c line.now }
{
    if c.fault.is_some() || c.left != 0 {
        return c;
    }
    let said = notation::parse_line(Text::Run, line);
    let next = Composer {
        line: notation::count_line(c.line),
        ..c
    };
    take_line(next, said)
}

// Writes the block under way, its records being the first `size` bytes.
#[tactic(auto, unfolding(crate::specs::Composer::flush_of, crate::specs::Composer::held_after))]
fn flush(c: Composer, size: usize, out: &mut [u8; 512]) -> Wrote
    requires { size ≤ 496 }
    ensures value { result ≡ flush_of c size }
    ensures out_after { out.new ≡ held_after c size result out.old }
{
    if BLOCKS <= c.blocks {
        return quiet(stop(c, Fault::TooMany));
    }
    match runfile::write_block(out, c.blocks as u32, c.n, &c.records[..size]).refusal {
        None => Wrote {
            composer: Composer {
                blocks: c.blocks + 1,
                count: 0,
                ..c
            },
            written: true,
        },
        Some(refusal) => quiet(stop(c, Fault::Refused(refusal.number()))),
    }
}

// Puts the action under way once into the block under way. The 31st record fills the block, which is then written.
#[tactic(auto, unfolding(crate::specs::Composer::put_of, crate::specs::Composer::held_after))]
pub fn put(mut c: Composer, out: &mut [u8; 512]) -> Wrote
    ensures value { result ≡ put_of c }
    ensures out_after { out.new ≡ put_held c out.old }
{
    if c.fault.is_some() || c.left == 0 {
        return quiet(c);
    }
    let at = 16 * c.count as usize;
    let action = c.action;
    record::write_action(&mut c.records, at, action);
    c.left -= 1;
    if c.count < 30 {
        c.count += 1;
        return quiet(c);
    }
    flush(c, 496, out)
}

fn used_by(count: u8) -> usize
    ensures value { result ≡ used_by count }
    ensures upper_bound { result ≤ 496 }
{
    if count < 31 { 16 * count as usize } else { 496 }
}

// The end of the text: the last block is written, if there is one under way.
#[tactic(auto, unfolding(crate::specs::Composer::finish_of, crate::specs::Composer::held_after))]
pub fn finish(c: Composer, out: &mut [u8; 512]) -> Wrote
    ensures value { result ≡ finish_of c }
    ensures out_after { out.new ≡ finish_held c out.old }
{
    if c.fault.is_some() || c.left != 0 {
        return quiet(c);
    }
    if c.n == 0 {
        return quiet(stop(c, Fault::NodesMissing));
    }
    if c.count != 0 {
        return flush(c, used_by(c.count), out);
    }
    if c.blocks == 0 {
        return quiet(stop(c, Fault::NoAction));
    }
    quiet(c)
}
