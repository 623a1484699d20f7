//! What `-D` words define: texts under names, and numbers with their formats. After LLVM Command Guide, FileCheck,
//! '-D<VAR=VALUE>' and '-D#<FMT>,<NUMVAR>=<NUMERIC EXPRESSION>'. The words themselves are read elsewhere.
#![tactic(auto)]

mod defined;
mod format;
mod laws;
mod start;
mod word;

pub use defined::{Defined, defined_by};
pub use laws::law_of_defines;
pub use start::start_vars;
