//! How a path is written, and what stands beside it.
ghost use Rattle.std.specs.Prelude.{◌≡◌, ◌++◌, ◌∷◌, ℕ, IfOk, List, OnOk, []};
ghost use Rattle.std.specs.List.{flat_map};
ghost use Rattle.lit_paths.specs.Paths.{CutsName, Parts, dir_of, is_above, slashed, text_of};

use memchr::memrchr;
use std::alloc::Global;
use tt_base::{Bytes, Items, NoMemory};

/// A path of the same parts.
pub fn copied(alloc: Global, path: &[Bytes]) -> Result<Items<Bytes>, NoMemory>
    ensures { IfOk result (λ copy. copy ≡ path.now) }
{
    let mut copy = Items::new(alloc);
    for part in path {
        copy.push(Bytes::from_slice(alloc, part.as_slice())?)?;
    }
    Ok(copy)
}

/// The path of a name in a directory.
pub fn with_name(alloc: Global, dir: &[Bytes], name: &[u8]) -> Result<Items<Bytes>, NoMemory>
    ensures { IfOk result (λ path. path ≡ dir.now ++ name.now ∷ []) }
{
    let mut path = copied(alloc, dir)?;
    path.push(Bytes::from_slice(alloc, name)?)?;
    Ok(path)
}

/// The directory that a path stands in.
pub fn dir_of(path: &[Bytes]) -> &[Bytes]
    ensures { result.now ≡ dir_of path.now }
{
    match path.split_last() {
        Some((_, dir)) => dir,
        None => path,
    }
}

/// How much room texts need.
fn room_for(texts: &[&[u8]]) -> usize {
    let mut room = 0usize;
    for text in texts {
        room = room.saturating_add(text.len());
    }
    room
}

/// Texts, one behind the other, with no more room than they need.
pub fn chained(alloc: Global, texts: &[&[u8]]) -> Result<Bytes, NoMemory>
    ensures { IfOk result (λ text. text ≡ flat_map (λ one. one.now) texts.now) }
{
    let mut chain = Bytes::with_capacity(alloc, room_for(texts))?;
    for text in texts {
        chain.append(text)?;
    }
    Ok(chain)
}

/// Adds each part to a text, with a slash before it.
pub fn add_slashed(text: &mut Bytes, path: &[Bytes]) -> Result<(), NoMemory>
    ensures { OnOk result (text.new ≡ text.old ++ slashed path.now) }
{
    for part in path {
        text.append(b"/".as_slice())?;
        text.append(part.as_slice())?;
    }
    Ok(())
}

/// The bytes of a path.
pub fn text_of(alloc: Global, path: &[Bytes]) -> Result<Bytes, NoMemory>
    ensures { IfOk result (λ text. text ≡ text_of path.now) }
{
    if path.is_empty() {
        return Bytes::from_slice(alloc, b"/".as_slice());
    }
    let mut text = Bytes::new(alloc);
    add_slashed(&mut text, path)?;
    Ok(text)
}

/// What stands before the names in a directory.
pub fn front_of(alloc: Global, dir: &[Bytes]) -> Result<Bytes, NoMemory>
    ensures { IfOk result (λ front. front ≡ slashed dir.now ++ 47 ∷ []) }
{
    let mut front = Bytes::new(alloc);
    add_slashed(&mut front, dir)?;
    front.append(b"/".as_slice())?;
    Ok(front)
}

/// What a text has behind a path, if it begins so.
pub fn behind_path<'a>(path: &[Bytes], text: &'a [u8]) -> &'a [u8]
    ensures { (rest : List ℕ) → text.now ≡ slashed path.now ++ rest → result.now ≡ rest }
{
    let mut rest = text;
    for part in path {
        rest = &rest[rest.len().min(part.as_slice().len() + 1)..];
    }
    rest
}

/// A text before its last slash and behind it.
pub fn cut_name(text: &[u8]) -> (&[u8], &[u8])
    ensures { CutsName text.now result.0.now result.1.now }
{
    match memrchr(b'/', text) {
        Some(at) => (&text[..at], &text[at + 1..]),
        None => (text, b"".as_slice()),
    }
}

/// Whether a path lies below a directory.
pub fn is_above(dir: &[Bytes], path: &[Bytes]) -> bool
    ensures { result ≡ is_above dir.now path.now }
{
    let mut rest = path;
    for part in dir {
        let Some((first, behind)) = rest.split_first() else {
            return false;
        };
        if part.as_slice() != first.as_slice() {
            return false;
        }
        rest = behind;
    }
    !rest.is_empty()
}
