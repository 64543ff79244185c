// The library for C, Rust and others: the calls over numbers and lists.
#![tactic(auto)]

pub mod check;
pub mod export;
pub mod file;
pub mod routine;
mod sizes;
pub mod store;
pub mod string;
pub mod table;
