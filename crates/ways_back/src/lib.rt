// The ways back of a listing's points: which edges go back, whether the TURN register covers each, refusal 20, and the bound that its rounds give.
#![tactic(auto)]

mod back;
mod covered;
pub mod points;
