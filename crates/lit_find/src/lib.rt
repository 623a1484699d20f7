//! Which files are the tests of a run: the files that path words name, and those below directories that they name. After
//! LLVM Command Guide, lit, 'TEST DISCOVERY'; a suite is what its `lit.suite.toml` says.
#![tactic(auto)]

mod discovery;
mod finding;
mod laws;
mod pending;
mod place;
mod sorting;
mod visit;
mod walk;
mod words;

pub use discovery::Discovery;
pub use finding::discover;
pub use laws::law_of_tests;
