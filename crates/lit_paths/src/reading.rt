//! How a text reads as a path.
ghost use Rattle.std.specs.Prelude.{◌≡◌, IfOk, OnOk};
ghost use Rattle.std.specs.List.{fold};
ghost use Rattle.lit_paths.specs.Paths.{AreParts, cut, joined, parts_of, with_part};

use crate::writing::copied;
use std::alloc::Global;
use tt_base::{Bytes, Items, NoMemory};

/// Adds a part to a path, or takes one away.
fn add_part(alloc: Global, path: &mut Vec<Bytes>, part: &[u8]) -> Result<(), NoMemory>
    ensures { OnOk result (path.new.items ≡ with_part path.old.items part.now) }
{
    if part.is_empty() || part == b".".as_slice() {
        return Ok(());
    }
    if part == b"..".as_slice() {
        let _last = path.pop();
        return Ok(());
    }
    match path.push(Bytes::from_slice(alloc, part)?) {
        Ok(()) => Ok(()),
        Err(_) => Err(NoMemory),
    }
}

/// Adds the parts of a text to a path.
fn add_parts(alloc: Global, path: &mut Vec<Bytes>, text: &[u8]) -> Result<(), NoMemory>
    ensures { OnOk result (path.new.items ≡ fold with_part path.old.items (cut text.now)) }
{
    for part in text.split(|byte| *byte == b'/') {
        add_part(alloc, path, part)?;
    }
    Ok(())
}

/// A text as a path that begins at `/`.
#[tactic(auto, using(crate::proofs::NormalLemmas::read_has_parts))]
pub fn read_path(alloc: Global, text: &[u8]) -> Result<Items<Bytes>, NoMemory>
    ensures path { IfOk result (λ path. path ≡ parts_of text.now) }
    ensures parts { IfOk result AreParts }
{
    let mut path = Vec::new(alloc);
    add_parts(alloc, &mut path, text)?;
    Ok(Items::from_vec(path))
}

/// The parts of a text between its slashes.
pub fn cut(alloc: Global, text: &[u8]) -> Result<Items<Bytes>, NoMemory>
    ensures { IfOk result (λ parts. parts ≡ cut text.now) }
{
    let mut parts = Items::new(alloc);
    for part in text.split(|byte| *byte == b'/') {
        parts.push(Bytes::from_slice(alloc, part)?)?;
    }
    Ok(parts)
}

/// A text as a path, joined to a directory unless it begins with `/`.
pub fn joined(alloc: Global, dir: &[Bytes], text: &[u8]) -> Result<Items<Bytes>, NoMemory>
    ensures path { IfOk result (λ path. path ≡ joined dir.now text.now) }
    ensures parts { AreParts dir.now → IfOk result AreParts }
{
    if text.starts_with(b"/".as_slice()) {
        return read_path(alloc, text);
    }
    let mut path = copied(alloc, dir)?.into_vec();
    add_parts(alloc, &mut path, text)?;
    Ok(Items::from_vec(path))
}
