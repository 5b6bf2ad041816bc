// What a run over files is, and of its report: whether the run was made, and which file a refusal is about.
#![tactic(auto)]

mod inputs;
mod reports;

pub use inputs::Inputs;
pub use reports::{file_of, is_made};
