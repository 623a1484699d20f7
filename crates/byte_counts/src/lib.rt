//! How often a byte stands in a text, counted by vectors. Own rule.
#![tactic(auto)]

mod counting;
mod lanes;

pub use counting::count_of;
