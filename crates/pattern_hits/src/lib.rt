//! What the hit of a pattern's instance gives the names that the pattern defines, and the hit of an instance that is plain
//! text. After LLVM Command Guide, FileCheck, 'FileCheck String Substitution Blocks' and 'FileCheck Numeric Substitution
//! Blocks'. Seeking stands above this crate.
#![tactic(auto)]

mod bound;
mod plain;

pub use bound::all_bound;
pub use plain::{find_text, text_of};
