// Lines: their forms, their tokens, and the lines of a plan.
#![tactic(auto)]

pub mod asm;
pub mod coded;
pub mod forms;
pub mod pieces;
pub mod rows;
