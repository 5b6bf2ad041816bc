// What is known at a point and along an edge: a range for each variable, and stripes.
#![tactic(auto)]

pub mod known;
pub mod pair;
pub mod point;
pub mod ranges;
pub mod sizes;
pub mod stripes;
