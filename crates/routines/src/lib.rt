// All small routines as records, by number.
#![tactic(auto)]

pub mod ending;
mod fields;
pub mod routine;
