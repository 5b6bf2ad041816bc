// What single instructions compute: numbers of registers, addresses, and numbers in the bytes of a table.
#![tactic(auto)]

pub mod arithmetic;
pub mod bytes;
