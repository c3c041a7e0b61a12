// Files by name, for the programs, read into lent buffers. What cannot be opened or read is named on standard error.
#![tactic(auto)]

pub mod args;
pub mod ending;
mod filling;
pub mod saying;
pub mod standard;
pub mod taking;
