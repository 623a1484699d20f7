//! Whether an expression over features holds, as a value: the meaning that `bool_exprs` gives it is a relation, and a law
//! says that it and the value are one. Whatever runs tests says its answers with the value.
#![tactic(auto)]

mod holding;
mod laws;

pub use holding::holds_in;
pub use laws::law_of_values;
