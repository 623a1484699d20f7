//! A prefix where it stands.

/// A prefix that stands at the front of a text: its number in its list, and how many bytes it has.
#[derive(Clone, Copy, Debug, PartialEq, Eq)]
pub struct Standing {
    pub index: usize,
    pub length: usize,
}
