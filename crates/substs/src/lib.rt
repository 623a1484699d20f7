//! The replacements in a line of a test's script. After LLVM Testing Infrastructure Guide, 'Substitutions'; in which
//! order they come is our own rule. A line is read above, in the script; what it runs is read from the replaced line.
#![tactic(auto)]

mod expansion;
mod fail;
mod forms;
mod replace;

pub use expansion::{Texts, expand};
pub use fail::ExpandFail;
