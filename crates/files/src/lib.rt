// Whole run files: the order of a file's blocks (number 10), and one file for each list of actions (proofs/Files.antt).
#![tactic(auto)]

pub mod order;
