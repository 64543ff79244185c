// Rows for the spreadsheet, and back: a listing's lists as a file of comma-separated rows.
#![tactic(auto)]

pub mod fields;
pub mod held;
pub mod machine;
pub mod numbers;
pub mod reading;
pub mod sizing;
pub mod writing;
