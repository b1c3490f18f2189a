// Runs, settings and questions in plain words: what each line says that people write.
#![tactic(auto)]

mod grammar;

ghost use Rattle.std.specs.Prelude.{◌≡◌, ◌≤◌, length};
ghost use Rattle.notation.specs.Grammar.{line_of};
ghost use Rattle.notation.specs.Reading.{counted, nodes_stage};
ghost use Rattle.notation.specs.Meaning.{mark_size};

use charts::{Action, Question, Refusal, User};
use faults::Fault;

// The byte order mark.
const MARK: [u8; 3] = [239, 187, 191];

// What a text is of: a run, the settings of a load trial, or a run and a question about it.
#[derive(Clone, Copy, PartialEq, Eq)]
pub enum Text {
    Run,
    Settings,
    Question,
}

// What a line says: nothing, the number of nodes, an action with how often it is repeated, the number of actions, a node's user, or a question with the depth
// of its search.
#[derive(Clone, Copy)]
pub enum Line {
    Blank,
    Nodes(u8),
    Acts(Action, u32),
    Actions(u16),
    User(u8, User),
    Finds(Question, u8),
}

// What a line of a text says, without its newline, or what is wrong with it.
#[tactic(auto, unfolding(crate::specs::Grammar::line_of))]
pub fn parse_line(text: Text, line: &[u8]) -> Result<Line, Fault>
    ensures { result ≡ line_of text line.now }
{
    if 255 < line.len() {
        return Err(Fault::LongLine);
    }
    grammar::parse(text, line)
}

// How many bytes of a text are its byte order mark.
pub fn mark_size(text: &[u8]) -> usize
    ensures value { result ≡ mark_size text.now }
    ensures upper_bound { result ≤ length text.now }
{
    if text.starts_with(&MARK) {
        MARK.len()
    } else {
        0
    }
}

// The number of the line after a line.
pub fn count_line(line: u64) -> u64
    ensures { result ≡ counted line }
{
    line.saturating_add(1)
}

// What a line `nodes M` makes of a text that has n nodes so far, 0 before such a line.
#[tactic(auto, unfolding(crate::specs::Reading::nodes_stage))]
pub fn nodes_stage(n: u8, m: u8) -> Result<(), Fault>
    ensures { result ≡ nodes_stage n m }
{
    if n != 0 {
        return Err(Fault::NodesAgain);
    }
    if !record::is_size(m) {
        return Err(Fault::Refused(Refusal::WrongSize.number()));
    }
    Ok(())
}
