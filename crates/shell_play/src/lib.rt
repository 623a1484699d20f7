//! The play of a script's lines: which request is due next, given the replies so far, and what is told of each command. After
//! POSIX.1 XCU 2.7 and 2.9 and the LLVM Testing Infrastructure Guide; that the stages of a pipe run one after the other, and that
//! files are written behind their command, are our own rules. `test_attempts` hands the requests to a hand.
#![tactic(auto)]

mod change;
mod places;
mod play;
mod stage;
mod steps;
mod told;
mod tools;

pub use places::{
    Places, StreamPlace, Write, errors_of, flow_of, is_null, joined, places_of, source_of,
    writes_of,
};
pub use play::{Due, Play};
pub use told::{LackNote, PlayEnd, Told};
pub use tools::tooled;
