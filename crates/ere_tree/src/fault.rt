//! Why a text is no expression.

/// Where and why an expression is refused.
#[derive(Clone, Copy, Debug, PartialEq, Eq)]
pub struct EreFault {
    /// The offset in the expression, in bytes from 0.
    pub at: usize,
    pub kind: EreKind,
}

/// What is wrong with an expression.
#[derive(Clone, Copy, Debug, PartialEq, Eq)]
pub enum EreKind {
    /// A branch with nothing in it, as in `(|a)`, at the `|`, `)` or end that closes it: 1.
    EmptyAlternative,
    /// A bound with no atom directly before it, as the second one of `a**`, at its first byte: 2.
    RepeatOfNothing,
    /// A bound in braces that is out of order, past 255 or out of form, as in `a{2,1}`, at its `{`: 1.
    BadBound,
    /// A group that isn't closed, as in `a(b`, at the innermost `(` that is open at the end: 1.
    UnclosedGroup,
    /// A `)` that closes nothing, as in `a)`, at it: 1.
    StrayClose,
    /// A bracket that isn't closed, as in `a[b`, at its `[`: 1.
    UnclosedBracket,
    /// A range from a greater to a lesser byte, as in `[z-a]`, or with a class at an end, at the first byte
    /// of the range: 1.
    BadRange,
    /// A class of another name than the twelve, as in `[[:word:]]`, at the inner `[`: 1.
    UnknownClass,
    /// A collating symbol or an equivalence class, as in `[[.a.]]`, at the inner `[`: 1.
    UnsupportedBracket,
    /// A reference to a group that isn't closed before it, as in `(a\1)`, at the `\`: 2.
    BadReference,
    /// A `\` at the end, as in `a\`, at it: 1.
    TrailingBackslash,
    /// An expression of a size past 100,000, as `((a{255}){255}){255}`, at 0.
    TooLarge,
    /// A group inside 250 others, at its `(`.
    TooDeep,
}

/// Why there is no expression.
#[derive(Clone, Copy, Debug, PartialEq, Eq)]
pub enum EreFail {
    /// The text is refused, as `a)`.
    Bad(EreFault),
    /// Memory ran out.
    NoMemory,
}
