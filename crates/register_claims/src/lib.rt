// What the claims of a point say of one register: its range, and the TURN register with the rounds that its high end allows.
#![tactic(auto)]

pub mod range;
pub mod turn;
