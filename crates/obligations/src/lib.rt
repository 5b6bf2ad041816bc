// 12 to 14: what each point owes, its own safety and the claims of the points that its edges lead to.
#![tactic(auto)]

pub mod points;
