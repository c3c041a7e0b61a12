// What the rules of a record share: verdicts in the order printed, entity fields, and what may stand after what.
#![tactic(auto)]

pub mod member;
pub mod order;
pub mod verdict;
