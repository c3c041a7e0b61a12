// The controls of a batch and of a file: what they count, and their rules, a chain in the order printed.
#![tactic(auto)]

pub mod batch_control;
pub mod control;
pub mod file_control;
pub mod tally;
