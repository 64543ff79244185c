// The command table of a listing: for each call by a name the bytes that a register was set to before it.
#![tactic(auto)]

pub mod lines;
pub mod printed;
pub mod set;
pub mod table;
