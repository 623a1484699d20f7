//! What may explain a directive that isn't met: what variables hold where it is tried, which of them it uses, and the line of the input
//! that may have been meant. Own rules, for the notes of `filecheck_explain`; no verdict hangs on them.
#![tactic(auto)]

mod at_fault;
mod edits;
mod lines;
mod uses;

pub use at_fault::{faults_in, run_before};
pub use edits::{Wanted, wanted_by};
pub use lines::near_line;
pub use uses::{Use, uses_in};
