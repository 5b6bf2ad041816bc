// Whether a goal or a claim follows from what is known along an edge.
#![tactic(auto)]

pub mod follows;
#[cfg(test)]
mod tests;
