//! The input of a run with what is found amiss in it: the lines that are marked and those near them, each with its number, and below a
//! line its marks. After LLVM Command Guide, FileCheck, --dump-input; the format is own. The idea: one cursor goes over the text, and
//! one over the marks in the order of their offsets. What is found amiss comes from `check_group`, below; `filecheck` writes the rows.
#![tactic(auto)]

mod cursor;
mod dumped;
mod laws;
mod marking;
mod newlines;
mod order;
mod row;
mod rows;
mod shown;
mod subject;

pub use dumped::{HEAD, TAIL, dump, put_dump};
pub use laws::law_of_lines;
pub use marking::{Mark, marks};
pub use rows::Rows;
pub use shown::Shown;
