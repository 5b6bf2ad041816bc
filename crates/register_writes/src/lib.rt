// What writes a register: whether a point does, and whether all that write the TURN register only take from it.
#![tactic(auto)]

pub mod writers;
