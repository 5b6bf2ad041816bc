// The lines of a listing as rows: a line is read once and looked up afterwards.
#![tactic(auto)]

pub mod rows;
