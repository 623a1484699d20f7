//! Rows of tests: a line each, with arrows between the fields.
use tt_base::{Bytes, NoMemory};

/// Whether bytes were made, and are those that are due.
pub(crate) fn are_bytes(made: Result<Bytes, NoMemory>, due: &[u8]) -> Result<bool, NoMemory> {
    Ok(made?.as_slice() == due)
}

/// The three fields of a row.
pub(crate) fn three(row: &str) -> Option<(&str, &str, &str)> {
    let (first, rest) = row.split_once(" => ")?;
    let (second, third) = rest.split_once(" => ")?;
    Some((first, second, third))
}

/// The three fields of a row, of which the second one is a number.
pub(crate) fn limited(row: &str) -> Option<(&str, u32, &str)> {
    let (first, second, third) = three(row)?;
    Some((first, second.parse::<u32>().ok()?, third))
}
