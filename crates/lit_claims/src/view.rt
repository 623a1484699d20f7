//! What a seat knows.
use std::collections::LinkedList;

/// A seat's share of the 64, and the numbers that it drew or took over. No value of it is made.
pub struct View {
    pub share: u64,
    pub drawn: LinkedList<u64>,
}
