// The writer of token codes.
#![tactic(auto)]

pub mod copy;
pub mod write;
