//! What the words of `filecheck` ask for: a check file with its options, a generated one, or one to be made; or the first refusal.
//! After LLVM Command Guide, FileCheck, 'OPTIONS'. Files and inputs are read above this crate.
#![tactic(auto)]

mod checking;
mod dumping;
mod fault;
mod given;
mod implicit;
mod job;
mod laws;
mod making;
mod prefixes;
mod values;

pub use checking::{Asked, Input};
pub use dumping::{Dump, When};
pub use fault::{WordsFail, WordsFault};
pub use job::{Job, asked_by};
pub use laws::law_of_implicit_patterns;
pub use making::Making;
pub use prefixes::{ChosenPrefixes, check_names, comment_names};
