//! What the words of `lit` ask for: the paths of tests, which of the tests are kept, and how they are shown; or the
//! first refusal. After LLVM Command Guide, lit, 'OPTIONS'. Tests are found above this crate.
#![tactic(auto)]

mod asked;
mod expression;
mod fault;
mod given;
mod number;
mod paths;

pub use asked::{Detail, LitAsked, asked_by};
pub use fault::{LitWordsFail, LitWordsFault};
pub use number::Shard;
