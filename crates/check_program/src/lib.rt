//! Check files as programs: their directives with the patterns of their bodies, or the first body that is refused. After
//! LLVM Command Guide, FileCheck. Lines are read below, in `check_lines`; scanning stands beside this crate, and messages
//! above it.
#![tactic(auto)]

mod compiling;
mod names;
mod program;

pub use compiling::compile;
pub use program::{CompileFail, CompileOpts, Program};
