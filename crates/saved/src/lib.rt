// What a run is given and leaves as text: its state, and the numbers that a user gives.
#![tactic(auto)]

pub mod numbers;
pub mod states;
