// The columns of a line: their digits and spaces, and what is kept of a field.
#![tactic(auto)]

pub mod digits;
pub mod field;
pub mod fours;
pub mod spaces;
