// From a lent listing to its points, and what is claimed at each: refusals 1 to 11 and 19.
#![tactic(auto)]

pub mod listing;
pub mod point_facts;
pub mod whole;
