//! What seeking a pattern answers.
use pattern_vars::Bindings;
use tt_base::{Bytes, Items, Span};

/// What seeking a pattern answers. Offsets count in the whole text.
#[derive(Drop, Debug)]
pub enum Sought {
    /// The part that matches, and what it gives.
    Found { span: Span, fresh: Bindings },
    /// It is nowhere.
    Absent,
    /// Names that it uses have no value: each once, in order of first use.
    UndefinedNames(Items<Bytes>),
    /// A number is out of range, or its format can't print it.
    Range,
    /// A division by zero.
    ZeroDivisor,
    /// The number in this part of a match is out of range.
    Unreadable(Span),
}
