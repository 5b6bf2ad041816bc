// The links along an edge, gathered from its stripes for the test of a goal.
#![tactic(auto)]

pub mod links;
