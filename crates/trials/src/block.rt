// The actions of a trial that go into one block.
ghost use Rattle.std.specs.Prelude.{◌≡◌, ◌+◌, ◌*◌, ◌<◌, ◌≤◌, take};
ghost use Rattle.charts.specs.View.{users_of};
ghost use Rattle.charts.specs.Layout.{records_of};
ghost use Rattle.turns.specs.Turns.{Allowed};
ghost use Rattle.trials.specs.Trying.{StandsAt, part};

use charts::{Bus, Kept, Tally, User, Users};

// A trial under way: the bus, what is kept of each user, and the tally.
#[derive(Clone, Copy)]
pub(crate) struct Trial {
    pub bus: Bus,
    pub kept: [Kept; 63],
    pub tally: Tally,
}

// A byte, and that it is one. (Of a field of an array's element the prover knows no range; a node's count of fillers needs it.)
fn byte(x: u8) -> u8
    ensures value { result ≡ x }
    ensures upper_bound { result < 256 }
{
    x
}

// The user of a node that has a place.
#[tactic(auto, unfolding(charts::specs::View::users_of))]
fn user_at(users: &Users, i: u8) -> User
    requires { i < 63 }
    ensures value { result ≡ users_of users.now i }
    ensures fillers_bound { result.fillers < 256 }
{
    let u = users[i as usize];
    User {
        fillers: byte(u.fillers),
        ..u
    }
}

// Makes so many actions, after `done` of them, and gives their records. Each is played on the bus where it lies.
pub(crate) fn make_actions(t: &mut Trial, users: &Users, done: u32, count: usize) -> [u8; 496]
    requires allowed { Allowed (users_of users.now) t.old.bus.n }
    requires stands_at { StandsAt (users_of users.now) done t.old }
    requires count_bound { (count ≤ 31) × (done + count ≤ 65535) }
    ensures stands_at_2 { StandsAt (users_of users.now) (done + count) t.new }
    ensures records_value { take (16 * count) result ≡ records_of (part (users_of users.now) t.old.bus.n done count) }
    ensures n_value { t.new.bus.n ≡ t.old.bus.n }
{
    let table = link::table::table();
    let mut records = [0u8; 496];
    for k in 0..count {
        let waited = turns::scan::wait(&t.bus, &t.kept);
        turns::keep::run_down(&mut t.kept, waited);
        let who = turns::scan::actor(&t.bus, &t.kept);
        let at = who as usize;
        let phase = t.bus.phase;
        let cell = deciding::cells::cell_of(
            t.bus.nodes[at],
            t.bus.won[at],
            t.bus.pending[at],
            t.bus.holder[at],
            t.bus.misled[at],
        );
        let u = user_at(users, who);
        let x = t.kept[at];
        let a = turns::choose::choose(phase, t.bus.concatenated, who, cell, u, x);
        // A trial chooses what is open: no action is refused.
        if let Ok(report) = bus::play(&mut t.bus, &table, false, a) {
            t.kept[at] = turns::keep::keep(phase, cell, u, a, x);
            turns::keep::run_down(&mut t.kept, 1);
            turns::keep::begin_spell(&mut t.kept, users, report);
            t.tally = turns::count::count(t.tally, a.kind, report);
            record::write_action(&mut records, 16 * k, a);
        }
    }
    records
}
