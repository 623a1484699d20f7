//! A check file and an input of any length, which a run of FileCheck can be timed on.
#![tactic(auto)]

mod lines;

pub use lines::{checks_text, input_text};
