//! Expressions over the features of a suite, as in `REQUIRES: linux && !{{arm.*}}`: a list of them is read, and one
//! holds or doesn't. After LLVM Testing Infrastructure Guide, 'Constraining test execution'.
#![tactic(auto)]

mod expr;
mod front;
mod holding;
mod laws;
mod name;
mod piece;
mod place;
mod reader;
mod token;

pub use expr::BoolExpr;
pub use holding::{has_refs, holds};
pub use laws::law_of_lists;
pub use reader::{MAX_WEIGHT, read_list};
