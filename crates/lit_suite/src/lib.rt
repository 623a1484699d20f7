//! The suite file of a directory of tests, `lit.suite.toml`: what it says, or its first fault with the key that has it;
//! and the shards of a run. The file is read as TOML; its keys are this project's own. The discovery of tests is above.
#![tactic(auto)]

mod laws;
mod parts;
mod reading;
mod shards;
mod suite_file;
mod tables;
mod values;

pub use laws::law_of_suites;
pub use reading::read_suite;
pub use shards::shard;
pub use suite_file::{Part, Suite, SuiteFail, SuiteFault};
