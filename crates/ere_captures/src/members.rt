//! From which places the members of a repeat lead on to its end.
ghost use Rattle.std.specs.Prelude.{◌≡◌, ◌-◌, ◌≤◌, false, length, IfOk};
ghost use Rattle.ere_captures.specs.Walk.{less_one, RestIn, RestBehind};
ghost use Rattle.ere_tree.specs.Shape.{has_refs};
ghost use Rattle.ere_tree.specs.View.{view};

use crate::input::Input;
use ere_places::{Direction, Seen, Window, image_of_repeat};
use ere_tree::Ere;
use std::alloc::{AllocError, Global};

/// The greatest number of members behind one.
pub(crate) fn less_one(most: Option<u32>) -> Option<u32>
    ensures { result ≡ less_one most }
{
    match most {
        Some(most) => Some(most.saturating_sub(1)),
        None => None,
    }
}

/// The places from which so many members lead to the end of the input.
pub(crate) fn rest(
    alloc: Global,
    inner: &Ere,
    least: u32,
    most: Option<u32>,
    input: &Input<'_>,
) -> Result<Seen, AllocError>
    requires no_refs { has_refs (view inner.now) ≡ false }
    requires order { input.now.from ≤ input.now.to }
    requires within { input.now.to ≤ length input.now.text.now }
    ensures { IfOk result (RestIn input.now (view inner.now) least most) }
{
    let to = input.to;
    let window = Window {
        low: input.from,
        high: to,
        direction: Direction::Back,
    };
    let places = image_of_repeat(alloc, inner, least, most, input.text, window, &[to])?;
    Seen::of(alloc, Direction::Back, to, places.as_slice())
}

/// The places for one member fewer than those of the set, which are behind one member.
pub(crate) fn rest_behind(
    alloc: Global,
    inner: &Ere,
    least: u32,
    most: Option<u32>,
    input: &Input<'_>,
    set: Seen,
) -> Result<Seen, AllocError>
    requires no_refs { has_refs (view inner.now) ≡ false }
    requires order { input.now.from ≤ input.now.to }
    requires within { input.now.to ≤ length input.now.text.now }
    requires held { RestBehind input.now (view inner.now) least most set }
    ensures { IfOk result (RestBehind input.now (view inner.now) (least - 1) (less_one most)) }
{
    if least == 0 && most.is_none() {
        return Ok(set);
    }
    let fewer = least.saturating_sub(1).saturating_sub(1);
    rest(alloc, inner, fewer, less_one(less_one(most)), input)
}
