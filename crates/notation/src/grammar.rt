// The productions of a line. Each reads on from a cursor.
ghost use Rattle.std.specs.Prelude.{◌≡◌};
ghost use Rattle.charts.specs.Kinds.{kind_number};
ghost use Rattle.words.specs.Words.{tokens_of};
ghost use Rattle.words.specs.Cursors.{tokens_left};
ghost use Rattle.notation.specs.Grammar.{last_of, repeat_of, ending_of, request_of, node_of, respond_of, change_of, action_of, nodes_of};
ghost use Rattle.notation.specs.Grammar.{actions_of, user_of, find_of, named_of, said_by};

use crate::{Line, Text};
use charts::{Action, Kind, Question, User};
use faults::Fault;
use words::{Cursor, Name, Token};

// An action with no fields: those that a kind doesn't name are 0.
const BARE: Action = Action {
    kind: 0,
    node: 0,
    address: 0,
    ack: 0,
    hold: 0,
    label: 0,
    byte6: 0,
    byte7: 0,
    header: 0,
    datum: 0,
};

// The end of a line that says r.
#[tactic(auto, unfolding(crate::specs::Grammar::last_of))]
fn last(line: &[u8], r: Line, c: Cursor) -> Result<Line, Fault>
    ensures { result ≡ last_of r (tokens_left line.now c.at) }
{
    match words::next_word(line, c) {
        None => Ok(r),
        Some(_) => Err(Fault::ExtraField),
    }
}

// What follows `*`.
#[tactic(auto, unfolding(crate::specs::Grammar::repeat_of))]
fn repeat(line: &[u8], a: Action, c: Cursor) -> Result<Line, Fault>
    ensures { result ≡ repeat_of a (tokens_left line.now c.at) }
{
    let (times, c) = fields::number(line, fields::LONG, c)?;
    if times == 0 {
        return Err(Fault::NoRepeat);
    }
    last(line, Line::Acts(a, times), c)
}

// What follows an action's fields.
#[tactic(auto, unfolding(crate::specs::Grammar::ending_of))]
fn ending(line: &[u8], a: Action, c: Cursor) -> Result<Line, Fault>
    ensures { result ≡ ending_of a (tokens_left line.now c.at) }
{
    match words::next_word(line, c) {
        None => Ok(Line::Acts(a, 1)),
        Some((t, next)) if fields::is_word(t, Name::Times) => repeat(line, a, next),
        Some(_) => Err(Fault::ExtraField),
    }
}

#[tactic(auto, unfolding(crate::specs::Grammar::request_of))]
fn request(line: &[u8], c: Cursor) -> Result<Line, Fault>
    ensures { result ≡ request_of (tokens_left line.now c.at) }
{
    let (node, c) = fields::number(line, fields::BYTE, c)?;
    let (address, c) = fields::address(line, c)?;
    let (header, c) = fields::number(line, fields::LONG, c)?;
    let (datum, c) = fields::number(line, fields::LONG, c)?;
    let (label, c) = fields::said(line, Name::Label, c)?;
    let a = Action {
        kind: Kind::Request.number(),
        node: node as u8,
        address: address as u8,
        label: label as u8,
        header,
        datum,
        ..BARE
    };
    ending(line, a, c)
}

// An action with a node alone.
#[tactic(auto, unfolding(crate::specs::Grammar::node_of))]
fn of_node(line: &[u8], kind: Kind, c: Cursor) -> Result<Line, Fault>
    ensures { result ≡ node_of (kind_number kind) (tokens_left line.now c.at) }
{
    let (node, c) = fields::number(line, fields::BYTE, c)?;
    let a = Action {
        kind: kind.number(),
        node: node as u8,
        ..BARE
    };
    ending(line, a, c)
}

#[tactic(auto, unfolding(crate::specs::Grammar::respond_of))]
fn respond(line: &[u8], c: Cursor) -> Result<Line, Fault>
    ensures { result ≡ respond_of (tokens_left line.now c.at) }
{
    let (node, c) = fields::number(line, fields::BYTE, c)?;
    let (ack, c) = fields::number(line, fields::BYTE, c)?;
    let (hold, c) = fields::hold(line, c)?;
    let a = Action {
        kind: Kind::Respond.number(),
        node: node as u8,
        ack: ack as u8,
        hold: hold as u8,
        ..BARE
    };
    ending(line, a, c)
}

#[tactic(auto, unfolding(crate::specs::Grammar::change_of))]
fn change(line: &[u8], c: Cursor) -> Result<Line, Fault>
    ensures { result ≡ change_of (tokens_left line.now c.at) }
{
    let (address, c) = fields::address_or_none(line, c)?;
    let a = Action {
        kind: Kind::Change.number(),
        address: address as u8,
        ..BARE
    };
    ending(line, a, c)
}

// An action's line after its first word.
#[tactic(auto, unfolding(crate::specs::Grammar::action_of))]
fn of_kind(line: &[u8], kind: Kind, c: Cursor) -> Result<Line, Fault>
    ensures { result ≡ action_of kind (tokens_left line.now c.at) }
{
    match kind {
        Kind::Request => request(line, c),
        Kind::Respond => respond(line, c),
        Kind::Change => change(line, c),
        Kind::Arbitrate | Kind::Clock | Kind::Ask | Kind::Decide => of_node(line, kind, c),
        Kind::Pass | Kind::Lose | Kind::Grant | Kind::Gap | Kind::Reset => {
            let a = Action {
                kind: kind.number(),
                ..BARE
            };
            ending(line, a, c)
        }
    }
}

#[tactic(auto, unfolding(crate::specs::Grammar::nodes_of))]
fn nodes(line: &[u8], c: Cursor) -> Result<Line, Fault>
    ensures { result ≡ nodes_of (tokens_left line.now c.at) }
{
    let (n, c) = fields::number(line, fields::BYTE, c)?;
    last(line, Line::Nodes(n as u8), c)
}

// The number of actions of settings.
#[tactic(auto, unfolding(crate::specs::Grammar::actions_of))]
fn actions(line: &[u8], c: Cursor) -> Result<Line, Fault>
    ensures { result ≡ actions_of (tokens_left line.now c.at) }
{
    let (n, c) = fields::number(line, fields::SHORT, c)?;
    last(line, Line::Actions(n as u16), c)
}

#[tactic(auto, unfolding(crate::specs::Grammar::user_of))]
fn user(line: &[u8], c: Cursor) -> Result<Line, Fault>
    ensures { result ≡ user_of (tokens_left line.now c.at) }
{
    let (node, c) = fields::number(line, fields::BYTE, c)?;
    let (address, c) = fields::to(line, c)?;
    let (spell, c) = fields::said(line, Name::Spell, c)?;
    let (fillers, c) = fields::said(line, Name::Fillers, c)?;
    let (hold, c) = fields::hold(line, c)?;
    let (period, c) = fields::said(line, Name::Kind(Kind::Lose), c)?;
    let u = User {
        spell: spell as u8,
        address: address as u8,
        fillers: fillers as u8,
        hold: hold != 0,
        period: period as u8,
    };
    last(line, Line::User(node as u8, u), c)
}

#[tactic(auto, unfolding(crate::specs::Grammar::find_of))]
fn find(line: &[u8], c: Cursor) -> Result<Line, Fault>
    ensures { result ≡ find_of (tokens_left line.now c.at) }
{
    let (word, c) = fields::report(line, c)?;
    let (node, c) = fields::number(line, fields::BYTE, c)?;
    let (depth, c) = fields::depth(line, c)?;
    let node = node as u8;
    last(line, Line::Finds(Question { word, node }, depth as u8), c)
}

// A line that begins with a name.
#[tactic(auto, unfolding(crate::specs::Grammar::named_of))]
fn named(text: Text, line: &[u8], k: Name, c: Cursor) -> Result<Line, Fault>
    ensures { result ≡ named_of text k (tokens_left line.now c.at) }
{
    match (text, k) {
        (_, Name::Nodes) => nodes(line, c),
        (Text::Run | Text::Question, Name::Kind(kind)) => of_kind(line, kind, c),
        (Text::Settings, Name::Actions) => actions(line, c),
        (Text::Settings, Name::User) => user(line, c),
        (Text::Question, Name::Find) => find(line, c),
        _ => Err(Fault::UnknownWord),
    }
}

// What a line of a text says.
#[tactic(auto, unfolding(crate::specs::Grammar::said_by))]
pub(crate) fn parse(text: Text, line: &[u8]) -> Result<Line, Fault>
    ensures { result ≡ said_by text (tokens_of line.now) }
{
    match words::next_word(line, Cursor { at: 0 }) {
        None => Ok(Line::Blank),
        Some((Token::Word(Some(k)), next)) => named(text, line, k, next),
        Some(_) => Err(Fault::UnknownWord),
    }
}
