// Reads the settings of a load trial from the lines of a text.
#![tactic(auto)]

ghost use Rattle.std.specs.Prelude.{◌≡◌};
ghost use Rattle.settings.specs.Settings.{ended, user_stage, nodes_taken, actions_taken, user_taken, line_taken, feed_of, end_of, finish_of, started};

use charts::{Refusal, User, Users};
use faults::Fault;
use notation::{Line, Text};

// A user that asks for nothing.
const UNSAID: User = User {
    spell: 0,
    address: 0,
    fillers: 0,
    hold: false,
    period: 0,
};

// The settings between two calls: the fault that has stopped them, the line last fed, n (0 before the `nodes` line), the number of actions, and the users.
#[derive(Clone, Copy)]
pub struct Settings {
    pub fault: Option<Fault>,
    pub line: u64,
    pub n: u8,
    pub actions: u16,
    pub users: Users,
}

// The settings before a text.
pub fn start() -> Settings
    ensures { result ≡ started }
{
    Settings {
        fault: None,
        line: 0,
        n: 0,
        actions: 0,
        users: [UNSAID; 63],
    }
}

#[tactic(auto, unfolding(crate::specs::Settings::nodes_taken))]
fn take_nodes(s: &mut Settings, n: u8) -> Result<(), Fault>
    ensures { ended s.new result ≡ nodes_taken s.old n }
{
    notation::nodes_stage(s.n, n)?;
    s.n = n;
    Ok(())
}

#[tactic(auto, unfolding(crate::specs::Settings::actions_taken))]
fn take_actions(s: &mut Settings, k: u16) -> Result<(), Fault>
    ensures { ended s.new result ≡ actions_taken s.old k }
{
    if s.n == 0 {
        return Err(Fault::NodesMissing);
    }
    s.actions = k;
    Ok(())
}

// What a user of node i that sends to an address makes of a text that has n nodes so far.
#[tactic(auto, unfolding(crate::specs::Settings::user_stage))]
fn user_stage(n: u8, i: u8, address: u8) -> Result<(), Fault>
    ensures { result ≡ user_stage n i address }
{
    if n == 0 {
        return Err(Fault::NodesMissing);
    }
    if n <= i {
        return Err(Fault::Refused(Refusal::WrongNode.number()));
    }
    if !record::is_address(n, address) {
        return Err(Fault::Refused(Refusal::WrongAddress.number()));
    }
    if record::is_own(i, address) {
        return Err(Fault::Refused(Refusal::ToItself.number()));
    }
    Ok(())
}

// A user's settings in place of those before it. From node 63 on there is no place.
#[tactic(auto, unfolding(crate::specs::Settings::user_taken))]
fn take_user(s: &mut Settings, i: u8, u: User) -> Result<(), Fault>
    ensures { ended s.new result ≡ user_taken s.old i u }
{
    user_stage(s.n, i, u.address)?;
    let at = i as usize;
    if at < s.users.len() {
        s.users[at] = u;
    }
    Ok(())
}

#[tactic(auto, unfolding(crate::specs::Settings::line_taken))]
fn take_line(s: &mut Settings, said: Result<Line, Fault>) -> Result<(), Fault>
    ensures { ended s.new result ≡ line_taken s.old said }
{
    match said? {
        Line::Blank => Ok(()),
        Line::Nodes(n) => take_nodes(s, n),
        Line::Actions(k) => take_actions(s, k),
        Line::User(i, u) => take_user(s, i, u),
        Line::Acts(_, _) | Line::Finds(_, _) => Err(Fault::UnknownWord),
    }
}

// Takes a line of the text, without its newline. Settings that have stopped take none.
#[tactic(auto, unfolding(crate::specs::Settings::feed_of))]
pub fn feed(mut s: Settings, line: &[u8]) -> Settings
    ensures { result ≡ feed_of s line.now }
{
    if s.fault.is_some() {
        return s;
    }
    s.line = notation::count_line(s.line);
    if let Err(fault) = take_line(&mut s, notation::parse_line(Text::Settings, line)) {
        s.fault = Some(fault);
    }
    s
}

// What the end of the text makes of settings. A user 0 that still sends to 0 has no line, since such a line is refused.
#[tactic(auto, unfolding(crate::specs::Settings::end_of, charts::specs::View::users_of))]
fn end(s: Settings) -> Result<(), Fault>
    ensures { result ≡ end_of s }
{
    if s.n == 0 {
        return Err(Fault::NodesMissing);
    }
    if record::is_own(0, s.users[0].address) {
        return Err(Fault::NoUser);
    }
    if s.actions == 0 {
        return Err(Fault::NoAction);
    }
    Ok(())
}

// The end of the text.
#[tactic(auto, unfolding(crate::specs::Settings::finish_of))]
pub fn finish(mut s: Settings) -> Settings
    ensures { result ≡ finish_of s }
{
    if s.fault.is_none() {
        s.fault = end(s).err();
    }
    s
}
