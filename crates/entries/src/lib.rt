// Individual records and their additionals: their rules, a chain in the order printed.
#![tactic(auto)]

pub mod additional;
pub mod individual;
