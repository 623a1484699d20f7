//! A run of tests with its report: the header, the tests by hands that are hired for the run, and the end. It stops where the
//! report can't be written, the tests keep too many bytes, or memory is wanting. After LLVM Command Guide, lit. Which tests are run
//! is decided above.
#![tactic(auto)]

mod ending;
mod message;
mod parts;
mod running;

pub use ending::{LitEnd, are_told};
pub use message::LIT;
pub use running::run_and_report;
