//! What a dump is of, and how far it has come.
use crate::marking::Mark;
use crate::shown::Shown;

/// A text with its marks in order and the lines of these, which of its lines are shown, and how wide their numbers are.
#[derive(Drop)]
pub(crate) struct Subject<'a> {
    pub(crate) text: &'a [u8],
    pub(crate) shown: Shown,
    pub(crate) order: Vec<&'a Mark>,
    pub(crate) lines: Vec<u64>,
    /// Whether a mark stands at the end of the text.
    pub(crate) marked: bool,
    pub(crate) width: usize,
}

/// How far a dump has come.
#[derive(Clone, Copy, Debug)]
pub(crate) struct Cursor {
    /// Where the line at hand begins; behind the text, where none is left.
    pub(crate) start: usize,
    /// Where the line before it begins.
    pub(crate) last: usize,
    /// The number of the line at hand.
    pub(crate) number: u64,
    /// How many marks are near no line from here on.
    pub(crate) passed: usize,
    /// How many marks are told.
    pub(crate) told: usize,
    /// Whether the line before is hidden.
    pub(crate) hidden: bool,
}
