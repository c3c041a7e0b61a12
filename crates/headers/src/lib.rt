// The headers of a file and of a batch: their rules, a chain in the order printed.
#![tactic(auto)]

pub mod batch_header;
pub mod file_header;
