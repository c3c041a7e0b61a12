// What the counter takes in: a roster and a tray, in pieces, and the buffers for them.
#![tactic(auto)]

pub mod held;
pub mod long;
pub mod roster;
