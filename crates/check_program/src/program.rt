//! What compiling gives.
use check_group::Check;
use pattern_parse::{Frame, PatFault};
use tt_base::{Bytes, Items};

/// How the bodies of directives are read.
#[derive(Clone, Copy, Debug, PartialEq, Eq)]
pub struct CompileOpts {
    /// Letters match in either case.
    pub fold: bool,
    /// What stands round a match on its line.
    pub frame: Frame,
}

/// The directives of a check file with their patterns. It is scanned with variables that have a place for each of its
/// names.
#[derive(Drop, Debug)]
pub struct Program {
    /// The directives of its lines, in order, by numbers from 0.
    pub checks: Items<Check>,
    /// The NOTs of every region, numbered behind those of lines.
    pub always: Items<Check>,
    /// The names that patterns define or use, each once, in order.
    pub names: Items<Bytes>,
}

/// Why directives aren't compiled.
#[derive(Debug)]
pub enum CompileFail {
    /// The first directive whose body is refused, by its number, and why.
    Bad { directive: usize, fault: PatFault },
    NoMemory,
}
