// What every program does before and after its answer: standard input into a list, and the answer to standard output.
#![tactic(auto)]

pub mod input;
pub mod output;
