//! Laws of the definitions of patterns: a match sets each group that gives something, and a recall means the nearest
//! definition to its left. After LLVM Command Guide, FileCheck, 'FileCheck String Substitution Blocks' and 'FileCheck
//! Numeric Substitution Blocks'.
#![tactic(auto)]

mod laws;

pub use laws::{law_of_groups, law_of_recalls};
