//! A note, as `filecheck` writes them.
use check_hints::Use;
use filecheck_messages::Spot;
use pattern_vars::Vars;
use std::alloc::Global;
use tt_base::{Bytes, NoMemory};

/// How many bytes of a value are told.
const MOST_TOLD: usize = 200;

/// Adds a note at a spot: its place, what is told, the line, and a mark below it.
pub(crate) fn add_note(
    alloc: Global,
    spot: &Spot,
    what: &[u8],
    notes: &mut Bytes,
) -> Result<(), NoMemory> {
    notes.append(spot.name.as_slice())?;
    add_number(alloc, spot.place.line, notes)?;
    add_number(alloc, spot.place.col, notes)?;
    notes.append(b": note: ")?;
    notes.append(what)?;
    notes.append(b"\n")?;
    notes.append(spot.line.as_slice())?;
    notes.append(b"\n")?;
    let blanks = spot.place.col.saturating_sub(1) as usize;
    match Vec::from_elem(alloc, b' ', blanks) {
        Ok(blanks) => notes.append(blanks.as_slice())?,
        Err(_) => return Err(NoMemory),
    }
    notes.append(b"^\n")
}

/// Adds a number behind a colon.
fn add_number(alloc: Global, number: u32, notes: &mut Bytes) -> Result<(), NoMemory> {
    notes.append(b":")?;
    match number.to_string(alloc) {
        Ok(text) => notes.append(text.as_bytes()),
        Err(_) => Err(NoMemory),
    }
}

/// What is told of a name that is used: its value, or that it has none.
pub(crate) fn value_text(alloc: Global, one: &Use<'_>, vars: &Vars) -> Result<Bytes, NoMemory> {
    let Some(value) = value_of(alloc, one, vars)? else {
        let mut text = Bytes::from_slice(alloc, b"\"")?;
        text.append(one.name)?;
        text.append(b"\" has no value")?;
        return Ok(text);
    };
    let mut text = Bytes::from_slice(alloc, b"with \"")?;
    text.append(one.name)?;
    text.append(b"\" equal to \"")?;
    for byte in value.as_slice().iter().take(MOST_TOLD) {
        match *byte {
            b'\n' => text.append(b"\\n")?,
            b'\t' => text.append(b"\\t")?,
            other => text.append(&[other])?,
        }
    }
    if value.len() > MOST_TOLD {
        text.append(b"..")?;
    }
    text.append(b"\"")?;
    Ok(text)
}

/// The value of a name that is used, if it has one.
fn value_of(alloc: Global, one: &Use<'_>, vars: &Vars) -> Result<Option<Bytes>, NoMemory> {
    if !one.is_number {
        return match vars.text(one.name) {
            Some(text) => Ok(Some(Bytes::from_slice(alloc, text.as_slice())?)),
            None => Ok(None),
        };
    }
    match vars.number(one.name) {
        Some(value) => match value.to_string(alloc) {
            Ok(text) => Ok(Some(Bytes::from_slice(alloc, text.as_bytes())?)),
            Err(_) => Err(NoMemory),
        },
        None => Ok(None),
    }
}
