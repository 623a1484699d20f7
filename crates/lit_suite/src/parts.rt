//! The parts of a suite.
ghost use Rattle.std.specs.Prelude.{◌≡◌, IfOk};
ghost use Rattle.lit_suite.specs.Parts.{inner_path, is_inner_path, is_name, optional_pairs, optional_texts, part_in, part_of, parts_of};
ghost use Rattle.toml.specs.View.{table_view, view};

use crate::suite_file::Part;
use crate::tables::{first_other, value_at};
use crate::values::{copied, full_texts, is_text, pairs_of};
use std::alloc::Global;
use toml::{Table, Value};
use tt_base::{Bytes, Items, NoMemory};
use tt_outside::Pair;

/// Whether a part of a path names something.
fn is_name(part: &[u8]) -> bool
    ensures { result ≡ is_name part.now }
{
    !(part == b"".as_slice() || part == b".".as_slice() || part == b"..".as_slice())
}

/// Whether a path lies below the directory that it is joined to.
fn is_inner_path(path: &[u8]) -> bool
    ensures { result ≡ is_inner_path path.now }
{
    path.split(|byte| *byte == b'/').all(is_name)
}

/// A path below a directory.
fn inner_path(alloc: Global, value: &Value) -> Result<Option<Bytes>, NoMemory>
    ensures { IfOk result (λ path. path ≡ inner_path (view value.now)) }
{
    match value.as_str() {
        Some(text) if is_text(text.as_bytes()) && is_inner_path(text.as_bytes()) => copied(
            alloc,
            text.as_bytes(),
        ),
        _ => Ok(None),
    }
}

/// The texts of a key that may be absent.
pub(crate) fn optional_texts(
    alloc: Global,
    table: &Table,
    key: &str,
) -> Result<Option<Items<Bytes>>, NoMemory>
    ensures { IfOk result (λ texts. texts ≡ optional_texts key.now (table_view table.now)) }
{
    match value_at(table, key) {
        Some(value) => full_texts(alloc, value),
        None => Ok(Some(Items::new(alloc))),
    }
}

/// The pairs of a key that may be absent.
pub(crate) fn optional_pairs(
    alloc: Global,
    table: &Table,
    key: &str,
) -> Result<Option<Items<Pair>>, NoMemory>
    ensures { IfOk result (λ pairs. pairs ≡ optional_pairs key.now (table_view table.now)) }
{
    match value_at(table, key) {
        Some(value) => pairs_of(alloc, value),
        None => Ok(Some(Items::new(alloc))),
    }
}

/// A part from its table.
fn part_in(alloc: Global, table: &Table) -> Result<Option<Part>, NoMemory>
    ensures { IfOk result (λ part. part ≡ part_in (table_view table.now)) }
{
    if first_other(alloc, &["path", "features", "substitutions"], table)?.is_some() {
        return Ok(None);
    }
    let Some(path) = value_at(table, "path") else {
        return Ok(None);
    };
    let Some(path) = inner_path(alloc, path)? else {
        return Ok(None);
    };
    let Some(features) = optional_texts(alloc, table, "features")? else {
        return Ok(None);
    };
    match optional_pairs(alloc, table, "substitutions")? {
        Some(substitutions) => Ok(Some(Part {
            path,
            features,
            substitutions,
        })),
        None => Ok(None),
    }
}

/// A part from its value.
fn part_of(alloc: Global, value: &Value) -> Result<Option<Part>, NoMemory>
    ensures { IfOk result (λ part. part ≡ part_of (view value.now)) }
{
    match value.as_table() {
        Some(table) => part_in(alloc, table),
        None => Ok(None),
    }
}

/// A list of parts.
pub(crate) fn parts_of(alloc: Global, value: &Value) -> Result<Option<Items<Part>>, NoMemory>
    ensures { IfOk result (λ parts. parts ≡ parts_of (view value.now)) }
{
    let Some(values) = value.as_array() else {
        return Ok(None);
    };
    let mut parts = Items::new(alloc);
    for value in values.as_slice() {
        match part_of(alloc, value)? {
            Some(part) => parts.push(part)?,
            None => return Ok(None),
        }
    }
    Ok(Some(parts))
}
