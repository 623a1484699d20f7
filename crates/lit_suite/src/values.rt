//! The values of a suite file. None is a value that isn't good.
ghost use Rattle.std.specs.Prelude.{◌≡◌, IfOk, Some};
ghost use Rattle.lit_suite.specs.Values.{any_text, full_text, full_texts, is_break, is_text, name_text, named_of, named_text, pair_of, pairs_of, some_full_texts};
ghost use Rattle.toml.specs.View.{view};

use std::alloc::Global;
use toml::Value;
use tt_base::{Bytes, Items, NoMemory};
use tt_outside::Pair;

/// The longest name of a suite, in bytes.
const MAX_NAME: usize = 100;

/// Whether a byte stands in no text: a newline, or zero.
fn is_break(byte: u8) -> bool
    ensures { result ≡ is_break byte }
{
    byte == b'\n' || byte == 0
}

/// Whether bytes are a text.
pub(crate) fn is_text(bytes: &[u8]) -> bool
    ensures { result ≡ is_text bytes.now }
{
    !bytes.iter().any(|byte| is_break(*byte))
}

/// A copy of bytes.
pub(crate) fn copied(alloc: Global, bytes: &[u8]) -> Result<Option<Bytes>, NoMemory>
    ensures { IfOk result (λ copy. copy ≡ Some bytes.now) }
{
    Ok(Some(Bytes::from_slice(alloc, bytes)?))
}

/// A text.
fn any_text(alloc: Global, value: &Value) -> Result<Option<Bytes>, NoMemory>
    ensures { IfOk result (λ text. text ≡ any_text (view value.now)) }
{
    match value.as_str() {
        Some(text) if is_text(text.as_bytes()) => copied(alloc, text.as_bytes()),
        _ => Ok(None),
    }
}

/// A text that isn't empty.
pub(crate) fn full_text(alloc: Global, value: &Value) -> Result<Option<Bytes>, NoMemory>
    ensures { IfOk result (λ text. text ≡ full_text (view value.now)) }
{
    match value.as_str() {
        Some(text) if is_text(text.as_bytes()) && !text.is_empty() => copied(
            alloc,
            text.as_bytes(),
        ),
        _ => Ok(None),
    }
}

/// A text of 1 to 100 bytes.
pub(crate) fn name_text(alloc: Global, value: &Value) -> Result<Option<Bytes>, NoMemory>
    ensures { IfOk result (λ text. text ≡ name_text (view value.now)) }
{
    match value.as_str() {
        Some(text) if is_text(text.as_bytes()) && !text.is_empty() && text.len() <= MAX_NAME => {
            copied(alloc, text.as_bytes())
        }
        _ => Ok(None),
    }
}

/// Texts that aren't empty.
pub(crate) fn full_texts(alloc: Global, value: &Value) -> Result<Option<Items<Bytes>>, NoMemory>
    ensures { IfOk result (λ texts. texts ≡ full_texts (view value.now)) }
{
    let Some(values) = value.as_array() else {
        return Ok(None);
    };
    let mut texts = Items::new(alloc);
    for value in values.as_slice() {
        match full_text(alloc, value)? {
            Some(text) => texts.push(text)?,
            None => return Ok(None),
        }
    }
    Ok(Some(texts))
}

/// One or more texts that aren't empty.
pub(crate) fn some_full_texts(
    alloc: Global,
    value: &Value,
) -> Result<Option<Items<Bytes>>, NoMemory>
    ensures { IfOk result (λ texts. texts ≡ some_full_texts (view value.now)) }
{
    match full_texts(alloc, value)? {
        Some(texts) => {
            if texts.is_empty() {
                return Ok(None);
            }
            Ok(Some(texts))
        }
        None => Ok(None),
    }
}

/// A list of two texts, of which the first isn't empty.
fn pair_of(alloc: Global, value: &Value) -> Result<Option<Pair>, NoMemory>
    ensures { IfOk result (λ pair. pair ≡ pair_of (view value.now)) }
{
    let Some(values) = value.as_array() else {
        return Ok(None);
    };
    let [name, value] = values.as_slice() else {
        return Ok(None);
    };
    let Some(name) = full_text(alloc, name)? else {
        return Ok(None);
    };
    match any_text(alloc, value)? {
        Some(value) => Ok(Some(Pair { name, value })),
        None => Ok(None),
    }
}

/// A list of such pairs.
pub(crate) fn pairs_of(alloc: Global, value: &Value) -> Result<Option<Items<Pair>>, NoMemory>
    ensures { IfOk result (λ pairs. pairs ≡ pairs_of (view value.now)) }
{
    let Some(values) = value.as_array() else {
        return Ok(None);
    };
    let mut pairs = Items::new(alloc);
    for value in values.as_slice() {
        match pair_of(alloc, value)? {
            Some(pair) => pairs.push(pair)?,
            None => return Ok(None),
        }
    }
    Ok(Some(pairs))
}

/// A name and its text in a table.
fn named_text(alloc: Global, name: &str, value: &Value) -> Result<Option<Pair>, NoMemory>
    ensures { IfOk result (λ pair. pair ≡ named_text name.now (view value.now)) }
{
    if !is_text(name.as_bytes()) {
        return Ok(None);
    }
    match any_text(alloc, value)? {
        Some(value) => Ok(Some(Pair {
            name: Bytes::from_slice(alloc, name.as_bytes())?,
            value,
        })),
        None => Ok(None),
    }
}

/// A table of texts, in byte order of its keys.
pub(crate) fn named_of(alloc: Global, value: &Value) -> Result<Option<Items<Pair>>, NoMemory>
    ensures { IfOk result (λ pairs. pairs ≡ named_of (view value.now)) }
{
    let Some(table) = value.as_table() else {
        return Ok(None);
    };
    let mut pairs = Items::new(alloc);
    for (name, value) in table {
        match named_text(alloc, name.as_str(), value)? {
            Some(pair) => pairs.push(pair)?,
            None => return Ok(None),
        }
    }
    Ok(Some(pairs))
}
