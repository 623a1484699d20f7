//! FileCheck as one call over objects that are handed in: words, files, an input, and two streams; and its answer where readings are
//! given. After LLVM Command Guide, FileCheck. The program `filecheck` stands above.
#![tactic(auto)]

mod answer;
mod check_file;
mod dumping;
mod file_names;
mod making;
mod plan;
mod program;
mod run;
mod start;
mod verdict;

pub use answer::{answer_on, names, outcome_on};
pub use check_file::CheckFile;
pub use file_names::Names;
pub use filecheck_messages::{Dumped, Finding, Made, Note, Refusal, Remark, Report, Spot, Stop};
pub use plan::{InputPlan, plan_on};
pub use program::AcceptedFile;
pub use run::{CHECK_LIMIT, FILECHECK, INPUT_LIMIT, filecheck_run};
pub use start::Start;
