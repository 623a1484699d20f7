//! What a discovery asks of one directory: what it lists, what refuses it, its suite, and the test that a path below a
//! suite's directory is. After LLVM Command Guide, lit, 'TEST DISCOVERY'; a suite is what its `lit.suite.toml` says.
#![tactic(auto)]

mod additions;
mod fault;
mod looking;
mod making;
mod names;
mod passing;

pub use additions::tools_of;
pub use fault::DiscoverFault;
pub use looking::{count_dir, list_dir, look_in};
pub use making::{name_of, test_of};
pub use passing::{has_suffix, is_passed};
