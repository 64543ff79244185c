// A listing's lists: what a call that fills them answers, and the rows that they hold.
#![tactic(auto)]

pub mod answer;
pub mod listing;
