// Field by field: what a record says. And records by their places in a file.
#![tactic(auto)]

pub mod block;
pub mod date;
pub mod entity;
pub mod individual;
pub mod kind;
pub mod place;
