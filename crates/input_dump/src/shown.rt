//! Which lines are shown.

/// Which lines of a text are shown: all of them, or those at most so many lines away from one with a mark.
#[derive(Clone, Copy, Debug, PartialEq, Eq)]
pub struct Shown {
    pub all: bool,
    pub context: u64,
}
