// The files that a run makes beside its own, and what they mean where it was broken off.
#![tactic(auto)]

pub mod left;
pub mod names;
