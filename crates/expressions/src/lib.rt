// What stands inside a line: conditions and the arguments of a call.
#![tactic(auto)]

pub mod arguments;
pub mod condition;
