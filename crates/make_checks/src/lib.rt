//! Check files that are made from an output: one directive for each of its lines, between anchors, behind the line before it, with a NOT in
//! front and one at the end, so that they accept that output and refuse each other one. Own form, of the directives of the LLVM Command
//! Guide, FileCheck. What such a file is is said in `file_laws`, how a line is quoted in `quote_laws`, and when a file stands for an output
//! in `exact_laws`. It is written line by line.
#![tactic(auto)]

mod directives;
mod fault;
mod kept;
mod lead;
mod lines;
mod making;
mod quoting;
mod room;
mod told;

pub use fault::{MAX_FILE, MakeFail, MakeFault};
pub use making::{make_checks, make_file, refresh, refresh_file};
pub use told::{MadeFile, put_file};
