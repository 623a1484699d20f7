//! The hit of an expression as a value, with the law that it is the hit of the definition. Whatever seeks patterns says
//! its answers with it.
#![tactic(auto)]

mod laws;

pub use laws::law_of_the_value;
