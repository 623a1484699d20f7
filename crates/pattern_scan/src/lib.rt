//! Where a pattern is found in a text, and what the match gives the names that it defines. After LLVM Command Guide,
//! FileCheck. Groups of directives, and whole checks, stand above this crate.
#![tactic(auto)]

mod means;
mod ready;
mod seeking;
mod sought;
mod stored;

pub use ready::{Ready, prepare};
pub use seeking::{Context, plain_text, seek};
pub use sought::Sought;
