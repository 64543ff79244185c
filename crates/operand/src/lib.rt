// Operands: names of addresses, memory, immediates.
#![tactic(auto)]

pub mod alike;
pub mod memory;
pub mod names;
pub mod numbers;
pub mod operand;
pub mod slots;
