// The lines of a listing, read in order: a row for each, and a place for each point.
#![tactic(auto)]

pub mod places;
pub mod read;
pub mod sizes;
