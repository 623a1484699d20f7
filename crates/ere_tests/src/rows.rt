//! Rows of tests: a line each, with arrows between the fields. A `~` in a text stands for a newline.
use std::alloc::{AllocError, Global};
use std::process::Abort;

/// What a test tells of a row.
pub(crate) trait Tells {
    /// What is told of all fields but the last, or a text that no row has.
    fn told(&self, alloc: Global, given: &str) -> Result<String, AllocError>;
}

/// Sees that of each row that is told which its last field has.
pub(crate) fn each_is_told<T: Tells>(
    rt: &impl Abort,
    alloc: Global,
    rows: &str,
    telling: &T,
) -> Result<(), AllocError> {
    for row in rows.lines() {
        assert!(rt; is_told(alloc, row, telling)?, "{row}");
    }
    Ok(())
}

fn is_told<T: Tells>(alloc: Global, row: &str, telling: &T) -> Result<bool, AllocError> {
    match row.rsplit_once(" => ") {
        Some((given, due)) => is_text(telling.told(alloc, given), due),
        None => Ok(false),
    }
}

/// Whether a text was made, and is the one that is due.
pub(crate) fn is_text(made: Result<String, AllocError>, due: &str) -> Result<bool, AllocError> {
    Ok(made?.as_str() == due)
}

/// What is told where a row has other fields than its kind.
pub(crate) fn no_row(alloc: Global) -> Result<String, AllocError> {
    String::from_str(alloc, "no row")
}

/// The three fields of a row.
pub(crate) fn three(row: &str) -> Option<(&str, &str, &str)> {
    let (first, rest) = row.split_once(" => ")?;
    let (second, third) = rest.split_once(" => ")?;
    Some((first, second, third))
}

/// Three fields, of which the last one is a number.
pub(crate) fn numbered(given: &str) -> Option<(&str, &str, usize)> {
    let (first, second, third) = three(given)?;
    Some((first, second, third.parse::<usize>().ok()?))
}

/// The four fields of a row, of which the third one is a number.
pub(crate) fn four(row: &str) -> Option<(&str, &str, usize, &str)> {
    let (first, second, rest) = three(row)?;
    let (third, fourth) = rest.split_once(" => ")?;
    let number = third.parse::<usize>().ok()?;
    Some((first, second, number, fourth))
}

/// The bytes of a field.
pub(crate) fn bytes_of(alloc: Global, field: &str) -> Result<Vec<u8>, AllocError> {
    let mut bytes = Vec::new(alloc);
    for byte in field.bytes() {
        bytes.push(if byte == b'~' { b'\n' } else { byte })?;
    }
    Ok(bytes)
}
