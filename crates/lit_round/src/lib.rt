//! One round of tests, by any number of workers: each draws numbers from one word, and runs the tests that they name by a hand of its
//! own, in a thread of its own where one can be had. What the workers share is that word and the tests, which don't change.
#![tactic(auto)]

mod round;
mod team;
mod worker;

pub use round::{Ran, run_round};
