//! The tests of a run, by one hand or by any number of them: each is run, and its trial is put on a desk in its place. A stop of the
//! desk, or want of memory, ends the run with what was put. After LLVM Command Guide, lit, for workers; the desk and the rounds
//! of 256 tests are our own.
#![tactic(auto)]

mod crew;
mod desk;
mod laws;
mod rounds;
mod run;
mod serial;
mod stop;
mod told;

pub use desk::Desk;
pub use laws::law_of_runs;
pub use run::run_all;
pub use serial::run_serial;
pub use stop::{PoolStop, PoolWhy};
pub use told::{ReportedTrial, reported};
