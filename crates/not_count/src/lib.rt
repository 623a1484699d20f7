//! Two small tools for scripts of tests: `count` compares the lines of its input with a number, `not` turns round whether a
//! program succeeds. After the tools of these names in LLVM's tree; messages and statuses are this project's own.
#![tactic(auto)]

mod asked;
mod command;
mod count;
mod inverse;
mod lines;

pub use command::{NoCommand, NotCommand, bytes_of, command_in};
pub use count::{COUNT, count_run};
pub use inverse::{INPUT_LIMIT, Inverse, NOT, inverse_answer, not_run, reply_answer};
