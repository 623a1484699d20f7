//! Why a check failed: behind each message of `filecheck` stand the values of the variables that the directive uses, the names that
//! have none, and the line of the input that may have been meant. Own form; LLVM's FileCheck has such notes in its messages. What
//! `filecheck` itself writes, and its status, are those of `filecheck_tool`; the notes are advice, and no rule hangs on them.
#![tactic(auto)]

mod explained;
mod note;
mod noted;
mod program;
mod run;

pub use explained::{Explained, ExplainedPart, explain_on};
pub use run::explain_run;
