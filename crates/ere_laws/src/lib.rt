//! Laws of the definitions of expressions: how tokens are spelled, where faults and hits lie, and that what stands before a fault can be completed.
#![tactic(auto)]

mod laws;

pub use laws::{law_of_the_faults, law_of_the_places, law_of_the_tokens};
