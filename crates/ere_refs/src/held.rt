//! Lists of what groups hold, group 1 first, with offsets of a text in which the slice begins at a start.
ghost use Rattle.std.specs.Prelude.{◌≡◌, ◌↔◌, ℕ, ◌+◌, ◌<◌, ◌≤◌, ◌^◌, false, IsTrue, MatchOption, None, Some, length, IfOk, vec_len};
ghost use Rattle.std.specs.FinMap.{empty, get, insert};
ghost use Rattle.ere_tree.specs.Captures.{Captures, caps_of};
ghost use Rattle.ere_refs.specs.Machine.{Inserts};
ghost use Rattle.ere_refs.specs.Over.{IsText, SetsBestOver};
ghost use Rattle.ere_tree.specs.Derivation.{IsSameText, Spans, part};
ghost use Rattle.ere_tree.specs.Shape.{has_refs, greatest_group};
ghost use Rattle.ere_tree.specs.View.{view};

use ere_captures::set_captures;
use ere_tree::{Cap, Ere};
use std::alloc::{AllocError, Global};

/// A part of a slice that begins in a text at `start`.
#[derive(Clone, Copy)]
pub(crate) struct Part {
    pub(crate) start: usize,
    pub(crate) from: usize,
    pub(crate) to: usize,
}

/// The list of so many groups that hold nothing.
pub(crate) fn none_held(alloc: Global, groups: u32) -> Result<Vec<Option<Cap>>, AllocError>
    ensures { IfOk result (λ held. (start : ℕ) → held.items ≡ caps_of start empty groups) }
{
    let mut held: Vec<Option<Cap>> = Vec::new(alloc);
    for _ in 0..groups {
        held.push(None)?;
    }
    Ok(held)
}

/// The list with one group set.
pub(crate) fn with_group(held: Vec<Option<Cap>>, number: u32, part: Part) -> Vec<Option<Cap>>
    requires number { number ≤ vec_len held }
    requires from { part.start + part.from < 2 ^ 64 }
    requires to { part.start + part.to < 2 ^ 64 }
    ensures set { Inserts part number held.items result.items }
    ensures long { length result.items ≡ length held.items }
{
    let mut held = held;
    if number > 0 {
        held[(number - 1) as usize] = Some(Cap {
            from: part.start + part.from,
            to: part.start + part.to,
        });
    }
    held
}

/// What groups hold behind an expression without references, which spans the part.
pub(crate) fn held_behind(
    alloc: Global,
    ere: &Ere,
    text: &[u8],
    part: Part,
    caps: &[Option<Cap>],
) -> Result<Vec<Option<Cap>>, AllocError>
    requires no_refs { has_refs (view ere.now) ≡ false }
    requires span { Spans text.now (view ere.now) part.from part.to }
    requires room { greatest_group (view ere.now) ≤ length caps.now }
    requires fits { part.start + length text.now < 2 ^ 64 }
    ensures best { IfOk result (λ held. SetsBestOver text.now (view ere.now) part caps.now held.items) }
    ensures long { IfOk result (λ held. length held.items ≡ length caps.now) }
{
    let mut held = Vec::from_slice(alloc, caps)?;
    let Part { start, from, to } = part;
    set_captures(alloc, ere, text, start, Cap { from, to }, &mut held)?;
    Ok(held)
}

/// The bytes from `from` to `to`, as far as the text goes.
fn part_of(text: &[u8], from: usize, to: usize) -> &[u8]
    ensures { result.now ≡ part text.now from to }
{
    let start = from.min(text.len());
    let end = to.min(text.len()).max(start);
    &text[start..end]
}

/// The text that a group holds. None where it is unset.
pub(crate) fn text_held<'a>(
    text: &'a [u8],
    start: usize,
    caps: &[Option<Cap>],
    number: u32,
) -> Option<&'a [u8]>
    requires some { 0 < number }
    requires room { number ≤ length caps.now }
    ensures { (c : Captures) → caps.now ≡ caps_of start c (length caps.now) → MatchOption result (get c number ≡ None)
        (λ held. IsText text.now c number held.now) }
{
    match caps[(number - 1) as usize] {
        None => None,
        Some(cap) => Some(part_of(
            text,
            cap.from.saturating_sub(start),
            cap.to.saturating_sub(start),
        )),
    }
}

/// Whether two texts are one, where letters match in either case with `fold`.
pub(crate) fn is_same_text(fold: bool, one: &[u8], other: &[u8]) -> bool
    ensures { IsTrue result ↔ IsSameText fold one.now other.now }
{
    if fold {
        one.eq_ignore_ascii_case(other)
    } else {
        one == other
    }
}
