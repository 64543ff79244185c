// The flow of a record: rows of numbers for its blocks, edges and instructions, and the plan of a range.
#![tactic(auto)]

pub mod planned;
pub mod rows;
pub mod silent;
