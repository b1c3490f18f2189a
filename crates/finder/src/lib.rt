// Reads a question, a run and then a line `find`, from the lines of a text. The run is played while it is read.
#![tactic(auto)]

ghost use Rattle.std.specs.Prelude.{◌≡◌};
ghost use Rattle.charts.specs.View.{view};
ghost use Rattle.finder.specs.Reader.{seen, started, ended, repeats, repeated, nodes_taken, action_taken, question_taken, statement_taken, line_taken, feed_of, finish_of};

use charts::{Action, Bus, Question, Refusal, Word};
use faults::Fault;
use notation::{Line, Text};

// A question between two calls: the fault that has stopped it, the line last fed, the bus that the run has left (its n is 0 before the `nodes` line), whether the line
// `find` was fed, and what it asks.
// A flag beside a question and a depth: `finish` refuses a text without the line, so the program that asks has no case for a question that is missing.
#[derive(Clone, Copy)]
pub struct Finder {
    pub fault: Option<Fault>,
    pub line: u64,
    pub bus: Bus,
    pub asked: bool,
    pub question: Question,
    pub depth: u8,
}

// Before a text.
pub fn start() -> Finder
    ensures { seen result ≡ started }
{
    Finder {
        fault: None,
        line: 0,
        bus: bus::fresh(0).bus,
        asked: false,
        question: Question {
            word: Word::Won,
            node: 0,
        },
        depth: 0,
    }
}

#[tactic(auto, using(bus::proofs::ViewLaws::view_n), unfolding(crate::specs::Reader::nodes_taken))]
fn take_nodes(f: &mut Finder, n: u8) -> Result<(), Fault>
    ensures { ended (seen f.new) result ≡ nodes_taken (seen f.old) n }
{
    notation::nodes_stage(f.bus.n, n)?;
    f.bus = bus::fresh(n).bus;
    Ok(())
}

// An action, as often as its line says, up to a refusal.
fn repeat(bus: &mut Bus, a: Action, times: u32) -> Result<(), Refusal>
    ensures { repeats result (view bus.new) ≡ repeated times (view bus.old) a }
{
    for _ in 0..times {
        let played = bus::step(*bus, a);
        played.report?;
        *bus = played.bus;
    }
    Ok(())
}

// A line's actions. A refused one leaves the bus as it was before the line.
#[tactic(auto, using(bus::proofs::ViewLaws::view_n), unfolding(crate::specs::Reader::action_taken))]
fn take_action(f: &mut Finder, a: Action, times: u32) -> Result<(), Fault>
    ensures { ended (seen f.new) result ≡ action_taken (seen f.old) a times }
{
    if f.bus.n == 0 {
        return Err(Fault::NodesMissing);
    }
    let mut bus = f.bus;
    repeat(&mut bus, a, times).map_err(|refusal| Fault::Refused(refusal.number()))?;
    f.bus = bus;
    Ok(())
}

#[tactic(auto, using(bus::proofs::ViewLaws::view_n), unfolding(crate::specs::Reader::question_taken))]
fn take_question(f: &mut Finder, question: Question, depth: u8) -> Result<(), Fault>
    ensures { ended (seen f.new) result ≡ question_taken (seen f.old) question depth }
{
    if f.bus.n == 0 {
        return Err(Fault::NodesMissing);
    }
    if let Some(refusal) = routes::number(f.bus, question, depth) {
        return Err(Fault::Refused(refusal.number()));
    }
    f.asked = true;
    f.question = question;
    f.depth = depth;
    Ok(())
}

// A line of each sort. (No line of a question says what settings say.)
#[tactic(auto, unfolding(crate::specs::Reader::statement_taken))]
fn take_statement(f: &mut Finder, said: Line) -> Result<(), Fault>
    ensures { ended (seen f.new) result ≡ statement_taken (seen f.old) said }
{
    match said {
        Line::Blank => Ok(()),
        Line::Nodes(n) => take_nodes(f, n),
        Line::Acts(a, times) => take_action(f, a, times),
        Line::Finds(question, depth) => take_question(f, question, depth),
        Line::Actions(_) | Line::User(_, _) => Err(Fault::UnknownWord),
    }
}

#[tactic(auto, unfolding(crate::specs::Reader::line_taken))]
fn take_line(f: &mut Finder, said: Result<Line, Fault>) -> Result<(), Fault>
    ensures { ended (seen f.new) result ≡ line_taken (seen f.old) said }
{
    let said = said?;
    if f.asked && !matches!(said, Line::Blank) {
        return Err(Fault::AfterQuestion);
    }
    take_statement(f, said)
}

// Takes a line of the text, without its newline. A question that has stopped takes none.
#[tactic(auto, unfolding(crate::specs::Reader::feed_of))]
pub fn feed(mut f: Finder, line: &[u8]) -> Finder
    ensures { seen result ≡ feed_of (seen f) line.now }
{
    if f.fault.is_some() {
        return f;
    }
    f.line = notation::count_line(f.line);
    if let Err(fault) = take_line(&mut f, notation::parse_line(Text::Question, line)) {
        f.fault = Some(fault);
    }
    f
}

// The end of the text.
#[tactic(auto, using(bus::proofs::ViewLaws::view_n), unfolding(crate::specs::Reader::finish_of))]
pub fn finish(mut f: Finder) -> Finder
    ensures { seen result ≡ finish_of (seen f) }
{
    if f.fault.is_some() {
        return f;
    }
    if f.bus.n == 0 {
        f.fault = Some(Fault::NodesMissing);
    } else if !f.asked {
        f.fault = Some(Fault::NoQuestion);
    }
    f
}
