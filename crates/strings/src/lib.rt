// A string's bytes from its literal in a listing.
#![tactic(auto)]

pub mod character;
pub mod literal;
pub mod reading;
