// Whether a goal follows from what is known along an edge, within so many links.
#![tactic(auto)]

pub mod at_once;
#[cfg(test)]
mod tests;
pub mod within;
