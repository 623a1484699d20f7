//! Why a numeric block is refused.

/// Where and why a numeric block is refused.
#[derive(Clone, Copy, Debug, PartialEq, Eq)]
pub struct NumFault {
    /// The offset behind the `[[#`, in bytes from 0, of the first byte that can't be read on.
    pub at: usize,
    pub kind: NumKind,
}

/// What is wrong with a numeric block.
#[derive(Clone, Copy, Debug, PartialEq, Eq)]
pub enum NumKind {
    /// No name before a `:`, as in `1:`, at 0.
    BadName,
    /// No format behind a `%`, as in `%.0u,` at 2, or no comma behind it.
    BadFormat,
    /// No expression, as in `N+`, at 2. The 251st operator, op or opening parenthesis can't be read on either, nor can
    /// a literal past 2^127-1.
    BadExpr,
}

/// Why there is no block.
#[derive(Clone, Copy, Debug, PartialEq, Eq)]
pub enum NumFail {
    /// The bytes are refused, as `N+`.
    Bad { at: usize, kind: NumKind },
    /// Memory ran out.
    NoMemory,
}
