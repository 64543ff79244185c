// The control-flow graph of a range, as rows of blocks and edges tell it: loops, entries, escapes, jumps from outside, and what
// stands at a place. Each test answers with how many edges it read.
#![tactic(auto)]

pub mod edges;
pub mod graph;
pub mod shape;
pub mod tests;
