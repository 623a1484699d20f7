//! Rows of tests: a line each, with arrows between the fields. In a text `~` stands for a newline.
use std::alloc::Global;
use tt_base::{Bytes, NoMemory};

/// The three fields of a row.
pub(crate) fn three(row: &str) -> Option<(&str, &str, &str)> {
    let (first, rest) = row.split_once(" => ")?;
    let (second, third) = rest.split_once(" => ")?;
    Some((first, second, third))
}

/// Adds a text.
pub(crate) fn add(bytes: &mut Bytes, text: &str) -> Result<(), NoMemory> {
    for byte in text.bytes() {
        let byte = if byte == b'~' { b'\n' } else { byte };
        bytes.append(&[byte])?;
    }
    Ok(())
}

/// The bytes of a text, and of another behind it.
pub(crate) fn both(alloc: Global, first: &str, second: &str) -> Result<Bytes, NoMemory> {
    let mut bytes = Bytes::new(alloc);
    add(&mut bytes, first)?;
    add(&mut bytes, second)?;
    Ok(bytes)
}

/// Whether bytes were made, and are those that are due.
pub(crate) fn are_bytes(made: Result<Bytes, NoMemory>, due: &[u8]) -> Result<bool, NoMemory> {
    Ok(made?.as_slice() == due)
}

/// Whether bytes were made, and are those of two texts.
pub(crate) fn are_both(
    alloc: Global,
    made: Result<Bytes, NoMemory>,
    first: &str,
    second: &str,
) -> Result<bool, NoMemory> {
    let due = both(alloc, first, second)?;
    are_bytes(made, due.as_slice())
}

/// Adds a number of two digits; a greater one ends so.
pub(crate) fn add_number(bytes: &mut Bytes, number: u64) -> Result<(), NoMemory> {
    if number >= 10 {
        bytes.append(&[b'0' + (number / 10 % 10) as u8])?;
    }
    bytes.append(&[b'0' + (number % 10) as u8])
}
