//! Options of a command line: a table has a row for each option, and a list of words is read by it.
//! The words come without the program's name. Spellings are after the LLVM Command Guide, whose tools take one dash or
//! two before a name, and a value behind `=` or as the next word; which row is meant where several might be is an own
//! rule, as are the faults. A program reads its settings once by `Table::read`, and goes over the values of a row that
//! may be given often by `Table::step`.
#![tactic(auto)]

mod fault;
mod name;
mod number;
mod row;
mod settings;
mod step;
mod table;
mod word;

pub use fault::WordFault;
pub use name::Name;
pub use number::decimal;
pub use row::{Form, Row};
pub use settings::Settings;
pub use step::{Given, Step};
pub use table::Table;
