//! What a check file that is made from an output is, and what it is read as.
#![tactic(auto)]

mod laws;

pub use laws::law_of_reading;
