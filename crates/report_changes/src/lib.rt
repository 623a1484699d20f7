//! What changed between two reports, as one call over objects that are handed in: words, files and two streams. Own form. The program
//! `lit_changes` stands above.
#![tactic(auto)]

mod answer;
mod asked;
mod run;
mod stop;

pub use asked::{ChangesRefusal, Reports};
pub use run::{CHANGES, REPORT_LIMIT, changes_run};
pub use stop::{ChangesStop, Unread};
