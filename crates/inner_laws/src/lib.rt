//! Laws of what is answered inside: one reply that fits its request, faults that have a cause, and each `not` as the inverse of what is
//! below it; and a crew whose hands answer so is steady where the one in it is.
#![tactic(auto)]

mod laws;

pub use laws::{law_of_inner_replies, law_of_steadiness};
