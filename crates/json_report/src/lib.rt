//! The JSON report of a run: how it is read, and what changed between two. JSON is RFC 8259's; which keys there are is our own.
#![tactic(auto)]

mod changed;
mod counts;
mod laws;
mod line;
mod reading;
mod results;

pub use changed::{Change, changes};
pub use counts::{counts_of, outcome_text, text_of};
pub use laws::law_of_reports;
pub use line::{Line, ReportFail, ReportFault};
pub use reading::read_report;
