//! What a test's file makes of the test: a result at once, or lines that run. After LLVM Testing Infrastructure Guide,
//! 'Constraining test execution'. The script is read by `lit_directives`, its lines are expanded by `substs` and understood
//! by `mini_shell`; the order of the reasons for which nothing runs is our own rule.
#![tactic(auto)]

mod cause;
mod plan;
mod runs;
mod texts;

pub use cause::Cause;
pub use plan::{Plan, Runs, plan_of};
