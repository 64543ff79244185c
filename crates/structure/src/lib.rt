// The structure of a range: loops, regions, labels and jumps, as a plan of lines with no text.
#![tactic(auto)]

pub mod blocks;
pub mod codes;
pub mod lines;
pub mod loops;
pub mod plan;
