//! Which part of a slice is looked at, and in which direction.

/// Ahead to the ends of spans, or back to their starts.
#[derive(Clone, Copy, Debug, PartialEq, Eq)]
pub enum Direction {
    Ahead,
    Back,
}

/// The places from `low` to `high`, both of them included, and a direction.
#[derive(Clone, Copy, Debug, PartialEq, Eq)]
pub struct Window {
    pub low: usize,
    pub high: usize,
    pub direction: Direction,
}
