//! The results that a test may have. After LLVM Command Guide, lit, 'TEST STATUS RESULTS'.
#![tactic(auto)]

mod outcome;

pub use outcome::Outcome;
