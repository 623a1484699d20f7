//! The JSON report of trials, as it is written: which tests it can tell of, and its text. Its keys are our own; how it is read and
//! what changed between two is `json_report`'s.
#![tactic(auto)]

mod text;
mod written;

pub use text::is_text;
pub use written::to_json;
