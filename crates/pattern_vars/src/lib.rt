//! Variables of patterns: under each name a text and a number. After LLVM Command Guide, FileCheck, 'FileCheck String
//! Substitution Blocks', 'FileCheck Numeric Substitution Blocks' and `--enable-var-scope`. What a pattern means where
//! variables have values stands above this crate.
#![tactic(auto)]

mod binding;
mod vars;

pub use binding::{Binding, Bindings};
pub use vars::{Held, Vars};
