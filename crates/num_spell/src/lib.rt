//! Spellings of numbers: how a format prints a number, what it reads, and the expression of all that it spells. After
//! LLVM Command Guide, FileCheck, 'FileCheck Numeric Substitution Blocks'.
#![tactic(auto)]

mod digits;
mod front;
mod printing;
mod reading;
mod wild_expression;

pub use front::{begins, behind};
pub use printing::print_value;
pub use reading::{number_of, read_value};
pub use wild_expression::wild;
