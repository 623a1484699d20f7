//! The instance of a pattern: the expression that is sought once variables have their values, with what a match gives the
//! names that the pattern defines; or the names without a value, or a fault of its numbers. After LLVM Command Guide,
//! FileCheck, 'FileCheck String Substitution Blocks' and 'FileCheck Numeric Substitution Blocks'. The search stands above
//! this crate.
#![tactic(auto)]

mod gift;
mod groups;
mod instance;
mod known;
mod missing;
mod name_list;
mod part;

pub use gift::Gift;
pub use instance::{Instance, make_instance};
pub use name_list::NameList;
pub use part::evaluated;
