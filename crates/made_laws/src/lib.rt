//! The theorem of check files that are made from outputs, over directives.
#![tactic(auto)]

mod laws;

pub use laws::{law_of_empty_lines, law_of_made_checks};
