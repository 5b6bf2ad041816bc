// What a reader must believe: the types of document 01. Its definitions stand in specs/, their proofs in proofs/.
#![tactic(auto)]

pub mod answers;
pub mod claims;
pub mod limits;
pub mod machine;
pub mod text;
