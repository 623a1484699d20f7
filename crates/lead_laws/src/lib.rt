//! What decides a line that begins with a lead.
#![tactic(auto)]

mod laws;

pub use laws::{law_of_canon, law_of_marks};
