// What an operator types at the counter: the words of a call, numbers among them, and a roster as text.
#![tactic(auto)]

pub mod call;
pub mod roster;
pub mod words;
