// Whether a record meets the assumptions under which its listing may be followed, or which it breaks first.
#![tactic(auto)]

pub mod assumption;
pub mod blocks;
pub mod check;
pub mod edges;
pub mod instructions;
pub mod labels;
pub mod names;
