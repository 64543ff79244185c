// A record with its instruction bodies by columns, for a store, and the way back.
#![tactic(auto)]

mod columns;
pub mod store;
