//! What `filecheck` tells: refusals and findings as data, and the answer that each comes to, its status with its text.
//! After LLVM Command Guide, FileCheck; the texts are own. The run stands above this crate.
#![tactic(auto)]

mod answer;
mod dumped;
mod finding;
mod message;
mod part;
mod refusal;
mod report;
mod spot;
mod telling;

pub use answer::answer_to;
pub use dumped::Dumped;
pub use finding::{Finding, Note, Remark};
pub use part::TextPart;
pub use refusal::{Refusal, StepFail, Stop, refuse, settled};
pub use report::{Made, Report};
pub use spot::{Spot, as_col, behind, spot_at, spot_in, spot_of};
pub use telling::Telling;
