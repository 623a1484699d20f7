//! Numbers of patterns: formats, expressions over named numbers, and their values. Values are whole numbers from
//! -2^127 to 2^127-1. After LLVM Command Guide, FileCheck, 'FileCheck Numeric Substitution Blocks'; the range is an
//! own rule.
#![tactic(auto)]

mod evaluation;
mod expr;
mod format;
mod laws;
mod numbers;
mod value;

pub use evaluation::{EvalFault, eval};
pub use expr::{Expr, Op};
pub use format::{Format, FormatKind};
pub use laws::law_of_undefined;
pub use numbers::Numbers;
