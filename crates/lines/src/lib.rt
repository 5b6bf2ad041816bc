// The lines of a listing: 40 bytes read as a word and six fields, and judged.
#![tactic(auto)]

pub mod judge;
pub mod line;
pub mod words;
