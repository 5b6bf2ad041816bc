// The answers as numbers: the number and the places of a refusal, and the arrays for C and Rust.
#![tactic(auto)]

pub mod arrays;
pub mod refusal;
