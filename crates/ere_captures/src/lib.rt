//! The captures of an expression without references inside a span that is known: those of the way down the expression
//! that is preferred. A search stands on this crate. The idea: a descent without a way back, since sets of places tell beforehand from
//! which ends the parts that follow still reach the end of the span.
#![tactic(auto)]

mod ends;
mod input;
mod members;
mod parts;
mod rest;
mod walk;

pub use rest::spans;
pub use walk::{captures, set_captures};
