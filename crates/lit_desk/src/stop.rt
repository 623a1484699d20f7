//! Why a desk takes no more.

/// Why a desk takes no more.
#[derive(Clone, Copy, Debug, PartialEq, Eq)]
pub enum DeskStop {
    /// The report couldn't be written on.
    SinkFault,
    /// The tests of the run keep more than 2 GiB.
    TooMuch,
    NoMemory,
}
