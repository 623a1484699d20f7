//! The nodes of a table.
use ere_tree::ByteSet;

/// A node: what it takes, and the nodes behind it by their places in the table.
#[derive(Clone, Copy, Debug, PartialEq, Eq)]
pub enum EreNode {
    /// The expression has matched.
    Stop,
    /// This byte, and on.
    Byte { byte: u8, next: usize },
    /// One byte of the set, and on.
    Set { set: ByteSet, next: usize },
    /// On at either.
    Fork { one: usize, other: usize },
    /// On, where a line starts.
    AtStart { next: usize },
    /// On, where a line ends.
    AtEnd { next: usize },
    /// Nowhere.
    Fail,
}
