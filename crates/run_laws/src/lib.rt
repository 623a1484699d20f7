//! Laws of the runs of `lit`: where the replies to a test hang on that test alone, every number of workers leaves one report, one status
//! and one list of trials, and a run that stops has the first of these.
#![tactic(auto)]

mod laws;

pub use laws::{law_of_calls, law_of_workers};
