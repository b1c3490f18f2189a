// Load trials (docs/TRIALS.md).
#![tactic(auto)]

mod block;

ghost use Rattle.std.specs.Prelude.{◌≡◌, true, ◌*◌, ◌≤◌};
ghost use Rattle.std.proofs.lemmas.List.Edits.{sets};
ghost use Rattle.charts.specs.Numbers.{err_number};
ghost use Rattle.charts.specs.State.{some};
ghost use Rattle.charts.specs.Valid.{is_size};
ghost use Rattle.charts.specs.Trials.{begins, trial, stray_address, own_address, trial_number, no_tally};
ghost use Rattle.files.specs.File.{blocks_for, file_of};
ghost use Rattle.charts.specs.View.{users_of};
ghost use Rattle.turns.specs.Turns.{load_in, tally_after, Allowed};
ghost use Rattle.trials.specs.Trying.{tried_of, kept_with, given, file_after};

use block::Trial;
use charts::{Kept, Refusal, Tally, Users};

// Whether the address of some node is neither below n nor 63, and whether that of some node is its own number.
fn has_stray(users: &Users, n: u8) -> bool
    requires { n ≤ 63 }
    ensures { result ≡ some (stray_address (users_of users.now) n) n }
{
    (0..n).any(|k| !record::is_address(n, users[usize::from(k)].address))
}

fn has_own(users: &Users, n: u8) -> bool
    requires { n ≤ 63 }
    ensures { result ≡ some (own_address (users_of users.now)) n }
{
    (0..n).any(|k| record::is_own(k, users[usize::from(k)].address))
}

// What a trial is refused by: 1, then 5 for all nodes, then 15 for all nodes, then 11.
#[tactic(auto, unfolding(charts::specs::Trials::trial_number))]
fn check(users: &Users, n: u8, actions: u16) -> Result<(), Refusal>
    ensures { err_number result ≡ trial_number (users_of users.now) n actions }
{
    if !record::is_size(n) {
        return Err(Refusal::WrongSize);
    }
    if has_stray(users, n) {
        return Err(Refusal::WrongAddress);
    }
    if has_own(users, n) {
        return Err(Refusal::ToItself);
    }
    if actions == 0 {
        return Err(Refusal::WrongCount);
    }
    Ok(())
}

fn nothing_counted() -> Tally
    ensures { result ≡ no_tally }
{
    Tally {
        requests: 0,
        wins: 0,
        sent: 0,
        acks: 0,
        misses: 0,
        drops: 0,
    }
}

// A trial before its first action.
fn begin(n: u8) -> Trial
    requires { is_size n ≡ true }
    ensures n_value { result.bus.n ≡ n }
    ensures made_value { load_in result.bus result.kept ≡ begins n }
    ensures tally_value { result.tally ≡ no_tally }
{
    let nothing_kept = Kept {
        left: 0,
        heard: 0,
        filled: 0,
        made: 0,
    };
    Trial {
        bus: bus::fresh(n).bus,
        kept: [nothing_kept; 63],
        tally: nothing_counted(),
    }
}

// Makes the actions of a trial that is not refused, block by block, and writes their run file: its size, and the tally.
fn carry_through(n: u8, users: &Users, actions: u32, file: &mut [u8; 1082880]) -> (usize, Tally)
    requires allowed { Allowed (users_of users.now) n }
    requires le_actions { (1 ≤ actions) × (actions ≤ 65535) }
    ensures size { result.0 ≡ 512 * blocks_for actions }
    ensures tally { result.1 ≡ tally_after (users_of users.now) n actions }
    ensures file_after { file.new ≡ sets file.old 0 (file_of n (trial (users_of users.now) n actions)) }
{
    let mut t = begin(n);
    let blocks = actions.div_ceil(31);
    for number in 0..blocks {
        let done = 31 * number;
        let count = (actions - done).min(31) as usize;
        let records = block::make_actions(&mut t, users, done, count);
        let at = 512 * (number as usize);
        runfile::write_block(&mut file[at..at + 512], number, n, &records[..16 * count]);
    }
    (512 * (blocks as usize), t.tally)
}

// A trial: its run file in the lent bytes, and that file's size. A refusal leaves the caller's tally as it was, else it is that of the trial.
pub fn trial(
    n: u8,
    users: Users,
    actions: u16,
    file: &mut [u8; 1082880],
    tally: &mut Tally,
) -> Result<usize, Refusal>
    ensures value { kept_with result tally.new ≡ tried_of tally.old (users_of users) n actions }
    ensures file_after { file.new ≡ file_after (users_of users) n actions file.old }
{
    check(&users, n, actions)?;
    let (size, counted) = carry_through(n, &users, u32::from(actions), file);
    *tally = counted;
    Ok(size)
}

// The same for a caller that keeps no tally: the trial's own, by value.
pub fn attempt(
    n: u8,
    users: Users,
    actions: u16,
    file: &mut [u8; 1082880],
) -> Result<(usize, Tally), Refusal>
    ensures value { given result ≡ tried_of no_tally (users_of users) n actions }
    ensures file_after { file.new ≡ file_after (users_of users) n actions file.old }
{
    let mut tally = nothing_counted();
    let size = trial(n, users, actions, file, &mut tally)?;
    Ok((size, tally))
}
