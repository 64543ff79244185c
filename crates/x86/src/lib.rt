// What document 01 and Intel's manual say of registers, mnemonics and conditions, by number.
#![tactic(auto)]

pub mod conditions;
pub mod conventions;
pub mod mnemonics;
pub mod registers;
pub mod sizes;
pub mod table;
pub mod width;
