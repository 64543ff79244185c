// The text that the program prints. Each writer is told where in the list its text begins.
#![tactic(auto)]

mod line;
pub mod number;
pub mod page;
