// Token codes: tokens are coded as numbers in a list and counted as they go.
#![tactic(auto)]

pub mod code;
pub mod read;
pub mod state;
pub mod tables;
