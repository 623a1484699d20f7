//! Where the parts of a concatenation end.
ghost use Rattle.std.specs.Prelude.{◌≡◌, ◌<◌, ◌≤◌, ◌∷◌, false, length, map, IfSome, IfOk, OnOk, vec_len};
ghost use Rattle.ere_captures.specs.Walk.{AreRestsIn, IsPartEnd, IsPartEndIn};
ghost use Rattle.ere_places.specs.Places.{SpanAll};
ghost use Rattle.ere_tree.specs.Shape.{has_refs, any_has_refs};
ghost use Rattle.ere_tree.specs.Tree.{trees_of};
ghost use Rattle.ere_tree.specs.View.{view};

use crate::input::Input;
use crate::parts::rests;
use crate::rest::greatest_end;
use ere_one::only_end;
use ere_places::Seen;
use ere_tree::Ere;
use std::alloc::{AllocError, Global};

/// The end of the first part, where it can be told with no set of places.
fn told_end(first: &Ere, others: &[Ere], text: &[u8], from: usize, to: usize) -> Option<usize>
    requires no_refs { any_has_refs (trees_of (map view others.now)) ≡ false }
    requires span { SpanAll text.now (view first.now ∷ map view others.now) from to }
    ensures { IfSome result (IsPartEnd text.now (view first.now) (map view others.now) from to) }
{
    if others.is_empty() {
        Some(to)
    } else {
        only_end(first, others, text, from)
    }
}

/// Finds from which places the last parts lead on, unless it is known.
fn fill(
    alloc: Global,
    parts: &[Ere],
    input: &Input<'_>,
    held: &mut Vec<Seen>,
) -> Result<(), AllocError>
    requires no_refs { any_has_refs (trees_of (map view parts.now)) ≡ false }
    requires order { input.now.from ≤ input.now.to }
    requires within { input.now.to ≤ length input.now.text.now }
    requires held { AreRestsIn input.now parts.now held.old }
    ensures held { AreRestsIn input.now parts.now held.new }
    ensures long { OnOk result (length parts.now < vec_len held.new) }
{
    if held.len() <= parts.len() {
        *held = rests(alloc, parts, input.text, input.from, input.to)?;
    }
    Ok(())
}

/// The greatest end of the first part from a place from which the others lead to the end of the input. There is one. The
/// sets of places are found when the first end cannot be told without them, and kept for the parts behind it.
pub(crate) fn part_end(
    alloc: Global,
    first: &Ere,
    others: &[Ere],
    input: &Input<'_>,
    from: usize,
    held: &mut Vec<Seen>,
) -> Result<usize, AllocError>
    requires no_refs { has_refs (view first.now) ≡ false }
    requires no_more_refs { any_has_refs (trees_of (map view others.now)) ≡ false }
    requires order { input.now.from ≤ from }
    requires span { SpanAll input.now.text.now (view first.now ∷ map view others.now) from input.now.to }
    requires held { AreRestsIn input.now others.now held.old }
    ensures end { IfOk result (IsPartEndIn input.now first.now others.now from) }
    ensures held { AreRestsIn input.now others.now held.new }
{
    let text = input.text;
    let to = input.to;
    if let Some(end) = told_end(first, others, text, from, to) {
        return Ok(end);
    }
    fill(alloc, others, input, held)?;
    greatest_end(alloc, first, text, from, to, &held[others.len()])
}
