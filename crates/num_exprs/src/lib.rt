//! Numeric blocks of patterns: the format, the name and the expression in `[[#%x,N:M+1]]`, or the first fault with its
//! place. After LLVM Command Guide, FileCheck, 'FileCheck Numeric Substitution Blocks'. What stands below, values and
//! spellings, is handed on.
#![tactic(auto)]

mod block;
mod fault;
mod head;
mod laws;
mod names;
mod place;
mod reader;
mod row;
mod token;

pub use block::{BlockReading, NumBlock, PlacedName, parse_block, read_block};
pub use fault::{NumFail, NumFault, NumKind};
pub use head::MAX_DIGITS;
pub use laws::law_of_expressions;
pub use names::name_at;
pub use num_base::{EvalFault, Expr, Format, FormatKind, Numbers, Op, eval};
pub use num_spell::{print_value, read_value, wild};
pub use reader::MAX_WEIGHT;
