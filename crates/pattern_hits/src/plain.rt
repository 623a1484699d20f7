//! Expressions that are plain text.
ghost use Rattle.std.specs.Prelude.{◌≡◌, ◌++◌, ◌≤◌, false, IfOk, IfSome, IsTrue, List, length, map, take, Some};
ghost use Rattle.ere_tree.specs.Hit.{FindsHit};
ghost use Rattle.ere_tree.specs.Tree.{Tree, cat, plain, trees_of};
ghost use Rattle.ere_tree.specs.View.{view};
ghost use Rattle.pattern_hits.specs.Plain.{IsText};
ghost use Rattle.tt_base.specs.Occurrence.{IsFirstIn, StandsAt};

use ere_tree::{Caps, Ere, Hit};
use std::alloc::Global;
use tt_base::{Bytes, NoMemory, find_in};

/// At how many places bytes are looked for one by one: most stand near, and to set a search up takes longer.
const NEAR: usize = 16;

/// The bytes of an expression that is one run of them.
fn run_of(ere: &Ere) -> Option<&[u8]>
    ensures { IfSome result (λ run. view ere.now ≡ plain run.now) }
{
    match ere {
        Ere::Plain(run) => Some(run.as_slice()),
        _ => None,
    }
}

/// The text that the parts of an expression are, if all are plain.
fn all_text(alloc: Global, parts: &[Ere]) -> Result<Option<Bytes>, NoMemory>
    ensures { IfOk result (λ told. IfSome told (IsText (cat (trees_of (map view parts.now))))) }
{
    let mut text = Bytes::new(alloc);
    for part in parts {
        let Some(run) = run_of(part) else {
            return Ok(None);
        };
        text.append(run)?;
    }
    Ok(Some(text))
}

/// The text that an expression is, if it is plain.
pub fn text_of(alloc: Global, ere: &Ere) -> Result<Option<Bytes>, NoMemory>
    ensures { IfOk result (λ told. IfSome told (IsText (view ere.now))) }
{
    match ere {
        Ere::Cat(parts) => all_text(alloc, parts.as_slice()),
        _ => Ok(None),
    }
}

/// Whether the first bytes of two slices differ.
#[tactic(auto, using(crate::proofs::NearLemmas::other_first))]
fn begins_otherwise(rest: &[u8], needle: &[u8]) -> bool
    ensures { IsTrue result → ¬ (take (length needle.now) rest.now ≡ needle.now) }
{
    !rest.is_empty() && !needle.is_empty() && rest[0] != needle[0]
}

/// Whether bytes stand at an offset of a slice.
fn stands_at(slice: &[u8], needle: &[u8], at: usize) -> bool
    requires { at ≤ length slice.now }
    ensures stands { IsTrue result → StandsAt slice.now needle.now (length slice.now) at }
    ensures stands_not { result ≡ false → ¬ StandsAt slice.now needle.now (length slice.now) at }
{
    let rest = slice.split_at(at).1;
    !begins_otherwise(rest, needle) && rest.starts_with(needle)
}

/// Where bytes first stand in a slice.
fn first_at(slice: &[u8], needle: &[u8]) -> Option<usize>
    ensures { IsFirstIn slice.now needle.now 0 (length slice.now) result }
{
    let near = slice.len().min(NEAR);
    for at in 0..near {
        if stands_at(slice, needle, at) {
            return Some(at);
        }
    }
    find_in(slice, needle, near, slice.len())
}

/// The hit of an expression that is this text, in the slice from `from` to the text's end.
pub fn find_text(alloc: Global, needle: &[u8], text: &[u8], from: usize) -> Option<Hit>
    requires { from ≤ length text.now }
    ensures { (t : Tree) → IsText t needle.now → FindsHit text.now t from result }
{
    let slice = text.split_at(from).1;
    match first_at(slice, needle) {
        Some(found) => Some(Hit {
            from: from + found,
            to: from + found + needle.len(),
            groups: Caps::new(alloc),
        }),
        None => None,
    }
}
