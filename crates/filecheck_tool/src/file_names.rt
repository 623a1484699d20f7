//! The files that an answer is read from.
use tt_base::Bytes;

/// The files that an answer is read from, by name.
#[derive(Drop, Debug)]
pub struct Names {
    /// The check file, unless it is made.
    pub check: Option<Bytes>,
    /// The input, where it is a file.
    pub input: Option<Bytes>,
}
