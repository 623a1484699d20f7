//! From which places the parts of a concatenation lead on to its end.
ghost use Rattle.std.specs.Prelude.{◌≡◌, ◌+◌, ◌≤◌, false, length, map, IfOk, vec_len};
ghost use Rattle.ere_captures.specs.Walk.{AreRests};
ghost use Rattle.ere_tree.specs.Shape.{any_has_refs};
ghost use Rattle.ere_tree.specs.Tree.{trees_of};
ghost use Rattle.ere_tree.specs.View.{view};

use ere_places::{Direction, Seen, Window, image};
use ere_tree::Ere;
use std::alloc::{AllocError, Global};

/// The places of [from, to] from which the last parts lead to its end: none of the parts first, all of them last.
pub(crate) fn rests(
    alloc: Global,
    parts: &[Ere],
    text: &[u8],
    from: usize,
    to: usize,
) -> Result<Vec<Seen>, AllocError>
    requires no_refs { any_has_refs (trees_of (map view parts.now)) ≡ false }
    requires order { from ≤ to }
    requires within { to ≤ length text.now }
    ensures long { IfOk result (λ all. vec_len all ≡ length parts.now + 1) }
    ensures each { IfOk result (AreRests text.now parts.now from to) }
{
    let window = Window {
        low: from,
        high: to,
        direction: Direction::Back,
    };
    let mut all = Vec::with_capacity(alloc, parts.len() + 1)?;
    let mut now = Vec::from_slice(alloc, &[to])?;
    all.push(Seen::of(alloc, Direction::Back, to, now.as_slice())?)?;
    for count in 0..parts.len() {
        let part = &parts[parts.len() - 1 - count];
        now = image(alloc, part, text, window, now.as_slice())?;
        all.push(Seen::of(alloc, Direction::Back, to, now.as_slice())?)?;
    }
    Ok(all)
}
