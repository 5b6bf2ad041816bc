// The tests of the fields of a line: what is asked of each, and the judgement of six by it.
#![tactic(auto)]

pub mod asked;
pub mod row_test;
