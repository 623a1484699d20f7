//! One test, run: its file is read, and what that makes of the test is done. A trial is what comes of it: the requests with
//! their replies, the result and the transcript. After LLVM Command Guide, lit, 'TEST STATUS RESULTS'; the transcript is our
//! own.
#![tactic(auto)]

mod ending;
mod laws;
mod names;
mod outcome;
mod running;
mod text;
mod transcript;
mod trial;

pub use laws::{law_of_handing_on, law_of_trials};
pub use outcome::Ending;
pub use test_outcome::Outcome;
pub use test_plan::Cause;
pub use text::Text;
pub use trial::{Trial, run_test};
