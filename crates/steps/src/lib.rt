// The machine: the step of an instruction, in place.
#![tactic(auto)]

pub mod step;
pub mod values;
