//! The automaton of a regular expression without references: it is shown the bytes of a slice one by one, and finds
//! the leftmost longest span. What it is shown is counted. The idea: Pike's threads, each with its start, over Thompson's table; the
//! steps that were made are kept as the rows of a lazy DFA. Threads without starts tell all ends from some places at once.
#![tactic(auto)]

mod auto;
mod closure;
mod ends;
mod marks;
mod moves;
mod row;
mod rows;
mod slot;
mod step;
mod steps;
mod taking;
mod thread;
mod threads;

pub use auto::Auto;
pub use ends::{ends_by, ends_from};
pub use steps::Steps;
