//! A line of progress at a terminal: how many tests were begun, and how many of those in the report failed. A crew's hands draw it
//! as they begin a test, and streams clear it before they take bytes; what crew and streams promise stays as it is.
#![tactic(auto)]

mod crew;
mod line;
mod sink;
mod tally;

pub use crew::{ProgressCrew, ProgressHand};
pub use line::ProgressLine;
pub use sink::ProgressSink;
pub use tally::Tally;
