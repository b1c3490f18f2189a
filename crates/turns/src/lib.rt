// The turns of a load trial (docs/TRIALS.md): waiting and whose turn it is (scan), the action that is chosen (choose), what follows it (keep) and the tally (count).
// The bus's marks and the users' numbers are arrays that the caller lends; of a node's record only what a rule names is looked at.
#![tactic(auto)]

pub mod choose;
pub mod count;
pub mod keep;
pub mod scan;
