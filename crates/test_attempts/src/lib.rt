//! The attempts of a test: its lines are played, and while they fail and retries are left they are played again. After LLVM
//! Command Guide, lit, ALLOW_RETRIES. Every request goes to a hand, and every reply is kept as an entry of the test.
#![tactic(auto)]

mod attempt;
mod attempts;

pub use attempt::{AttemptEnd, AttemptStop, play_out};
pub use attempts::{Finished, run_attempts};
