//! The texts of FileCheck: their canonical form, and the directives that a check file holds line by line.
//! After LLVM Command Guide, FileCheck. Scanning and messages stand above. A text is made canonical in place, by vectors of sixteen
//! bytes that a table moves together.
#![tactic(auto)]

mod canonical;
mod checks;
mod chunk;
mod class;
mod decision;
mod directive;
mod fault;
mod kind;
mod line;
mod suffix;

pub use canonical::{canon, canon_owned};
pub use checks::{FileRules, read_checks};
pub use decision::{Decision, LineMark, Prefixes, decide};
pub use directive::Directive;
pub use fault::{CheckFail, CheckFault, CheckKind, LineFault};
pub use kind::{Kind, KindRow, row_of};
pub use suffix::{Spelled, Spelling};
