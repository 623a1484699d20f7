//! The lines of a test's script that run: commands, pipes and what joins them, with redirections and quoting. After
//! LLVM Testing Infrastructure Guide, 'RUN lines', whose shell is a small part of POSIX.1 XCU 2; what is refused, and
//! where, is our own rule. A line comes here as it is behind its substitutions; what it runs is decided above.
#![tactic(auto)]

mod class;
mod fault;
mod laws;
mod line;
mod parser;
mod reader;
mod token;
mod word;

pub use fault::{ShellFail, ShellFault, ShellKind};
pub use laws::{law_of_lines, law_of_readings, law_of_values, law_of_words};
pub use line::{Command, Join, Line, Pipe, Redir, RedirForm};
pub use parser::parse_line;
