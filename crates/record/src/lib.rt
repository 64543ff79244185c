// The record: its header, its arrays, and the questions that a call asks of it before it lists anything.
#![tactic(auto)]

pub mod asked;
pub mod atlas;
pub mod blocks;
pub mod body;
pub mod branches;
pub mod header;
pub mod layout;
pub mod search;
