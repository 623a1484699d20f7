//! Whether an expression with references matches exactly from one place of a text to another, sought depth first: where there
//! are many ways, one of them is found soon. That none is found tells nothing.
#![tactic(auto)]

mod open;
mod search;
mod sums;
mod task;

pub use search::is_between;
