//! What a line of a check file asks for.
use crate::kind::Kind;
use tt_base::Span;

/// A directive of a check file. Lines and columns count from 1, in the canonical text.
#[derive(Clone, Copy, Debug, PartialEq, Eq)]
pub struct Directive {
    /// The offset of its prefix in the canonical text.
    pub at: usize,
    pub line: u32,
    /// The column of its prefix.
    pub head: u32,
    /// The column of its body.
    pub col: u32,
    /// Which of the check prefixes it has, from 0.
    pub prefix: usize,
    pub kind: Kind,
    /// Whether all of its body is plain text: `CHECK{LITERAL}:`.
    pub literal: bool,
    /// Its body in the canonical text.
    pub body: Span,
}
