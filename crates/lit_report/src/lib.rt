//! The report of a run: its header, a part for each test, and its end, with the names of the tests that failed and how many
//! tests had each result. After LLVM Command Guide, lit, for what `-q`, `-v` and `-a` show; the texts are our own.
#![tactic(auto)]

mod ending;
mod laws;
mod part;
mod reported;
mod text;

pub use ending::{end_of, status_of};
pub use laws::law_of_reports;
pub use part::{header, part_of};
pub use reported::Reported;
