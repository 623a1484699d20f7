//! Which ends lead on to the end of a span, and the greatest of them.
ghost use Rattle.std.specs.Prelude.{◌≡◌, ◌↔◌, ◌≤◌, false, length, IsTrue, IfOk};
ghost use Rattle.ere_captures.specs.Walk.{HasEnd, IsGreatest, IsGreatestEnd, greater};
ghost use Rattle.ere_places.specs.Seen.{is_held};
ghost use Rattle.ere_tree.specs.Derivation.{Spans};
ghost use Rattle.ere_tree.specs.Shape.{has_refs};
ghost use Rattle.ere_tree.specs.View.{view};

use ere_places::{Direction, Seen, Window, image};
use ere_tree::Ere;
use std::alloc::{AllocError, Global};

/// The greater of two places, of which the first may be missing.
fn greater(held: Option<usize>, place: usize) -> usize
    ensures { result ≡ greater held place }
{
    match held {
        Some(other) => other.max(place),
        None => place,
    }
}

/// The greatest of some places that is in a set.
fn greatest(places: &[usize], set: &Seen) -> Option<usize>
    ensures { IsGreatest (is_held set.now) places.now result }
{
    let mut held: Option<usize> = None;
    for place in places {
        if set.has(*place) {
            held = Some(greater(held, *place));
        }
    }
    held
}

/// The greatest end of the expression from a place that is in a set. There is one.
pub(crate) fn greatest_end(
    alloc: Global,
    ere: &Ere,
    text: &[u8],
    from: usize,
    to: usize,
    set: &Seen,
) -> Result<usize, AllocError>
    requires no_refs { has_refs (view ere.now) ≡ false }
    requires order { from ≤ to }
    requires within { to ≤ length text.now }
    requires some { HasEnd text.now (view ere.now) set.now from to }
    ensures { IfOk result (IsGreatestEnd text.now (view ere.now) set.now from to) }
{
    let window = Window {
        low: from,
        high: to,
        direction: Direction::Ahead,
    };
    let ends = image(alloc, ere, text, window, &[from])?;
    match greatest(ends.as_slice(), set) {
        Some(end) => Ok(end),
        None => Ok(from),
    }
}

/// Whether the expression spans the part.
pub fn spans(
    alloc: Global,
    ere: &Ere,
    text: &[u8],
    from: usize,
    to: usize,
) -> Result<bool, AllocError>
    requires no_refs { has_refs (view ere.now) ≡ false }
    requires order { from ≤ to }
    requires within { to ≤ length text.now }
    ensures { IfOk result (λ yes. IsTrue yes ↔ Spans text.now (view ere.now) from to) }
{
    let window = Window {
        low: from,
        high: to,
        direction: Direction::Back,
    };
    let starts = image(alloc, ere, text, window, &[to])?;
    Ok(starts.as_slice().contains(&from))
}
