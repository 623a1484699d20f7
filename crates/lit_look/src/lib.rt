//! Which directories a discovery has looked at, and the suite of a directory: the one at it, or the nearest above.
//! After LLVM Command Guide, lit, 'TEST DISCOVERY'; a suite is what its `lit.suite.toml` says. What was looked at is
//! kept, so no directory is looked at twice.
#![tactic(auto)]

mod looking;
mod root;
mod seen;
mod upward;

pub use looking::{look, look_through};
pub use root::{SharedRoot, SuiteRoot};
pub use seen::{Looked, MAX_ITEMS, SeenFolders};
pub use upward::nearest;
