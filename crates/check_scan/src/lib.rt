//! The verdict of a check file's directives on an input: blocks by labels, and in each the matches one behind the other with
//! the NOTs between them. After LLVM Command Guide, FileCheck. What one directive, a group and a region come to stands below,
//! in `check_group`; check lines are compiled, and messages are written, above.
#![tactic(auto)]

mod block;
mod closing;
mod labels;
mod laws;
mod parts;
mod progress;
mod subject;
mod verdict;

pub use laws::{each_directive_in_one_block, each_directive_once};
pub use subject::Subject;
pub use verdict::{Verdict, scan};
