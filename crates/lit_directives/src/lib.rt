//! The script of a test of lit: its RUN lines, the lists of REQUIRES, UNSUPPORTED and XFAIL, and its retries, or the
//! first fault. After LLVM Command Guide, lit, and LLVM Testing Infrastructure Guide. Expressions over features are read
//! and judged by `bool_exprs`.
#![tactic(auto)]

mod fault;
mod front;
mod keyword;
mod line;
mod reader;
mod retries;
mod runs;
mod script;

pub use bool_exprs::{BoolExpr, holds};
pub use fault::{MAX_RETRIES, MAX_RUNS, ScriptFail, ScriptFault};
pub use script::{RunLine, Script, read_script};
