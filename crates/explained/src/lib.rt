// A refusal in words: what it means, what to do, and the line that it names as it is shown.
#![tactic(auto)]

pub mod shown;
pub mod words;
