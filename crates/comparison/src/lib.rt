// What the comparison with the Rust calls, in one library: the product's functions, and two that only the comparison has.
#![tactic(auto)]

pub mod calls;
pub mod pieces;
pub mod questions;
