//! Rows of the kept steps.

/// A list of threads at a place, and what the step that came there did besides.
#[derive(Clone, Copy, Debug, PartialEq, Eq)]
pub struct Row {
    /// Its threads, in the pool.
    pub from: usize,
    pub to: usize,
    /// Whether a line starts there.
    pub line: bool,
    /// Whether no match is known.
    pub searching: bool,
    /// Whether no byte that comes can change the span.
    pub over: bool,
    /// The slot of the start that began in the step.
    pub begun: Option<usize>,
    /// The slot of the start that matched in the step.
    pub met: Option<usize>,
}
