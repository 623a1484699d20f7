//! Why a body is refused.
use ere_tree::EreFault;

/// Where and why a body is refused.
#[derive(Clone, Copy, Debug, PartialEq, Eq)]
pub struct PatFault {
    /// The offset in the body, in bytes from 0.
    pub at: usize,
    pub kind: PatKind,
}

/// What is wrong with a body.
#[derive(Clone, Copy, Debug, PartialEq, Eq)]
pub enum PatKind {
    /// More than 65,536 bytes, at 0.
    TooLong,
    /// No `}}` behind a `{{`, as in `{{a`, at it: 0.
    NoRegexEnd,
    /// No `]]` behind a `[[`, as in `[[X:[a]`, at it: 0.
    NoBlockEnd,
    /// A regular expression that is refused, as in `{{a)}}`, at the byte of its own fault: 3.
    BadRegex(EreFault),
    /// No name, as in `[[1X]]`, at the first byte that can't be read on: 2.
    BadName,
    /// No format, as in `[[#%y,N:]]`, at the first byte that can't be read on: 4.
    BadFormat,
    /// No expression, as in `[[#N+]]`, at the first byte that can't be read on: 5.
    BadExpr,
    /// Numbers of different formats in a block without one of its own, at the name that shows it.
    FormatConflict,
    /// A number that the same directive defines is used, as in `[[#N:]][[#N]]`, at the later name: 10.
    SameLineNumber,
    /// A block in a label, at its `[[`.
    VariableInLabel,
    /// More than nine definitions of texts are recalled in the same body, at 0.
    TooManyReferences,
}

/// Why there is no pattern.
#[derive(Clone, Copy, Debug, PartialEq, Eq)]
pub enum PatFail {
    /// The body is refused, as `{{a`.
    Bad(PatFault),
    /// Memory ran out.
    NoMemory,
}
