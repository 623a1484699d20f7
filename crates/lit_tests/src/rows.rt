//! Rows of tests: a line each, with arrows between the fields. In a text `~` stands for a newline.
use std::alloc::Global;
use std::process::Abort;
use tt_base::{Bytes, NoMemory};

/// What a test tells of a row.
pub(crate) trait Tells {
    /// What is told of all fields but the last, or a text that no row has.
    fn told(&self, alloc: Global, given: &str) -> Result<Bytes, NoMemory>;
}

/// Sees that of each row that is told which its last field has.
pub(crate) fn each_is_told<T: Tells>(
    rt: &impl Abort,
    alloc: Global,
    rows: &str,
    telling: &T,
) -> Result<(), NoMemory> {
    for row in rows.lines() {
        assert!(rt; is_told(alloc, row, telling)?, "{row}");
    }
    Ok(())
}

fn is_told<T: Tells>(alloc: Global, row: &str, telling: &T) -> Result<bool, NoMemory> {
    match row.rsplit_once(" => ") {
        Some((given, due)) => are_bytes(telling.told(alloc, given), due.as_bytes()),
        None => Ok(false),
    }
}

/// Whether bytes were made, and are those that are due.
pub(crate) fn are_bytes(made: Result<Bytes, NoMemory>, due: &[u8]) -> Result<bool, NoMemory> {
    Ok(made?.as_slice() == due)
}

/// What is told where a row has other fields than its kind.
pub(crate) fn no_row(alloc: Global) -> Result<Bytes, NoMemory> {
    Bytes::from_slice(alloc, b"no row")
}

/// The bytes of a text.
pub(crate) fn bytes_of(alloc: Global, field: &str) -> Result<Bytes, NoMemory> {
    let mut bytes = Bytes::with_capacity(alloc, field.len())?;
    for byte in field.as_bytes() {
        let byte = if *byte == b'~' { b'\n' } else { *byte };
        bytes.append(&[byte])?;
    }
    Ok(bytes)
}
