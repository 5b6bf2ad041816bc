// The answers for a reader: the lines that the programs print.
#![tactic(auto)]

pub mod bound_line;
pub mod printed;
pub mod run_line;
