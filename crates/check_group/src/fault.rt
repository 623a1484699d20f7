//! What is found amiss in an input.
use tt_base::{Bytes, Items};

/// Why a directive isn't met. Offsets count in the input.
#[derive(Drop, Debug)]
pub enum FaultKind {
    /// It isn't found from `from` on, where its last try began; of a COUNT, `done` matches were found before.
    NotFound {
        from: usize,
        done: u32,
    },
    /// A NEXT or an EMPTY is found, but not exactly one newline stands between the match before, which ended at
    /// `last`, and it.
    WrongLine {
        found: usize,
        last: usize,
        newlines: u64,
    },
    /// A SAME is found, but behind a newline.
    NotSameLine {
        found: usize,
        last: usize,
    },
    /// A NOT is found.
    Excluded {
        found: usize,
    },
    /// Names that its pattern uses have no value: each once, in order of first use.
    Undefined(Items<Bytes>),
    /// A number that its pattern uses is out of range, or its format can't print it.
    Range,
    /// Its pattern divides by zero.
    ZeroDivisor,
    /// The number that begins at `found` in its match is out of range.
    Unreadable {
        found: usize,
    },
}

/// A directive that isn't met, by its number.
#[derive(Drop, Debug)]
pub struct Fault {
    pub directive: usize,
    pub kind: FaultKind,
}
