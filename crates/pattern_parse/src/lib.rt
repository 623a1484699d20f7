//! Bodies of directives: plain text, regular expressions, text variables and numbers, as pieces of a pattern. After
//! LLVM Command Guide, FileCheck, 'FileCheck Regex Matching Syntax', 'FileCheck String Substitution Blocks' and 'FileCheck
//! Numeric Substitution Blocks'. Directives and scanning stand above this crate.
#![tactic(auto)]

mod block;
mod cutting;
mod demand;
mod fault;
mod formats;
mod laws;
mod parser;
mod pattern;
mod said;

pub use demand::{Demand, LineRule, Role};
pub use fault::{PatFail, PatFault, PatKind};
pub use formats::Formats;
pub use laws::law_of_bodies;
pub use num_base::{Format, FormatKind};
pub use parser::{MAX_BODY, MAX_REFERENCES, parse_pattern};
pub use pattern::{BodyRules, Frame, Pattern, Piece};
