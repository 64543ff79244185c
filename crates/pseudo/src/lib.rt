// The call: questions, sizes, lists.
#![tactic(auto)]

pub mod answered;
pub mod call;
pub mod coding;
pub mod marks;
pub mod size;
pub mod writing;
