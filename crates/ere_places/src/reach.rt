//! The places that an expression leads to.
ghost use Rattle.std.specs.Prelude.{◌≡◌, ◌≤◌, ◌<◌, false, length, map, IfOk};
ghost use Rattle.std.specs.List.{All};
ghost use Rattle.ere_tree.specs.Shape.{has_refs, any_has_refs};
ghost use Rattle.ere_tree.specs.Tree as trees;
ghost use Rattle.ere_tree.specs.Tree.{trees_of};
ghost use Rattle.ere_tree.specs.View.{view};
ghost use Rattle.ere_places.specs.Places.{AreReached, Finds, IsInside, Reaches};
ghost use Rattle.ere_places.specs.Steps.{ByOne, MembersUpTo, Through, in_order, place_in, further_members};

use crate::leaf::past_leaves;
use crate::list::{nearest, put_new};
use crate::seen::Seen;
use crate::window::{Direction, Window};
use ere_tree::Ere;
use std::alloc::{AllocError, Global};

/// Where the part stands that comes after so many others in the direction.
fn place_in(direction: Direction, count: usize, index: usize) -> usize
    requires { index < count }
    ensures value { result ≡ place_in direction count index }
    ensures within { result < count }
{
    match direction {
        Direction::Ahead => index,
        Direction::Back => count - 1 - index,
    }
}

/// The places to which the parts lead, one behind the other.
#[cycle(image)]
fn through(
    alloc: Global,
    parts: &[Ere],
    text: &[u8],
    window: Window,
    from: &[usize],
) -> Result<Vec<usize>, AllocError>
    requires no_refs { any_has_refs (trees_of (map view parts.now)) ≡ false }
    requires window { window.high ≤ length text.now }
    requires inside { All (IsInside window) from.now }
    ensures { IfOk result (λ found. AreReached
        (Through text.now window (in_order window.direction (map view parts.now)))
        from.now found.items) }
{
    let mut now = Vec::from_slice(alloc, from)?;
    for index in 0..parts.len() {
        let at = place_in(window.direction, parts.len(), index);
        now = image(alloc, &parts[at], text, window, now.as_slice())?;
    }
    Ok(now)
}

/// The places that one of the alternatives leads to.
#[cycle(image)]
fn by_one(
    alloc: Global,
    choices: &[Ere],
    text: &[u8],
    window: Window,
    from: &[usize],
) -> Result<Vec<usize>, AllocError>
    requires no_refs { any_has_refs (trees_of (map view choices.now)) ≡ false }
    requires window { window.high ≤ length text.now }
    requires inside { All (IsInside window) from.now }
    ensures { IfOk result (Reaches (ByOne text.now window (map view choices.now)) from.now) }
{
    let mut seen = Seen::new(alloc, window.direction, nearest(window.direction, from));
    let mut all = Vec::new(alloc);
    for one in choices {
        let found = image(alloc, one, text, window, from)?;
        put_new(found.as_slice(), &mut seen, &mut all)?;
    }
    Ok(all)
}

/// The places that up to so many members lead to.
#[cycle(image)]
fn by_members(
    alloc: Global,
    inner: &Ere,
    most: usize,
    text: &[u8],
    window: Window,
    from: &[usize],
) -> Result<Vec<usize>, AllocError>
    requires no_refs { has_refs (view inner.now) ≡ false }
    requires window { window.high ≤ length text.now }
    requires inside { All (IsInside window) from.now }
    ensures { IfOk result (Reaches (MembersUpTo text.now (view inner.now) window most) from.now) }
{
    let mut seen = Seen::new(alloc, window.direction, nearest(window.direction, from));
    let mut all = Vec::new(alloc);
    put_new(from, &mut seen, &mut all)?;
    let mut done = 0;
    for _ in 0..most {
        if done == all.len() {
            return Ok(all);
        }
        let next = image(alloc, inner, text, window, all.as_slice().split_at(done).1)?;
        done = all.len();
        put_new(next.as_slice(), &mut seen, &mut all)?;
    }
    Ok(all)
}

/// How many members more than `least` a repeat may have in a window so wide. None where it can have none at all.
fn further_members(least: u32, most: Option<u32>, width: usize) -> Option<usize>
    ensures { result ≡ further_members least most width }
{
    match most {
        None => Some(width),
        Some(most) if most < least => None,
        Some(most) => Some((most - least) as usize),
    }
}

/// The places of the window to which a repeat leads from some of its places, as `image` tells them.
#[cycle(image)]
pub fn image_of_repeat(
    alloc: Global,
    inner: &Ere,
    least: u32,
    most: Option<u32>,
    text: &[u8],
    window: Window,
    from: &[usize],
) -> Result<Vec<usize>, AllocError>
    requires no_refs { has_refs (view inner.now) ≡ false }
    requires window { window.high ≤ length text.now }
    requires inside { All (IsInside window) from.now }
    ensures { IfOk result (Finds text.now (trees.repeat (view inner.now) least most) window from.now) }
{
    match further_members(least, most, window.high.saturating_sub(window.low)) {
        None => Ok(Vec::new(alloc)),
        Some(more) => {
            let mut now = Vec::from_slice(alloc, from)?;
            for _ in 0..least {
                now = image(alloc, inner, text, window, now.as_slice())?;
            }
            by_members(alloc, inner, more, text, window, now.as_slice())
        }
    }
}

/// The places of the window to which the expression leads from some of its places: with `Ahead` the ends of its spans
/// that begin at one of those, with `Back` the starts of its spans that end at one.
#[cycle(image)]
pub fn image(
    alloc: Global,
    ere: &Ere,
    text: &[u8],
    window: Window,
    from: &[usize],
) -> Result<Vec<usize>, AllocError>
    requires no_refs { has_refs (view ere.now) ≡ false }
    requires window { window.high ≤ length text.now }
    requires inside { All (IsInside window) from.now }
    ensures { IfOk result (Finds text.now (view ere.now) window from.now) }
{
    match ere {
        Ere::Cat(parts) => through(alloc, parts.as_slice(), text, window, from),
        Ere::Alt(choices) => by_one(alloc, choices.as_slice(), text, window, from),
        Ere::Group { inner, .. } => image(alloc, inner, text, window, from),
        Ere::Repeat { inner, least, most } => image_of_repeat(
            alloc, inner, *least, *most, text, window, from,
        ),
        Ere::Ref { .. } => Ok(Vec::new(alloc)),
        Ere::Empty => past_leaves(alloc, ere, text, window, from),
        Ere::Plain(_) => past_leaves(alloc, ere, text, window, from),
        Ere::Set(_) => past_leaves(alloc, ere, text, window, from),
        Ere::LineStart => past_leaves(alloc, ere, text, window, from),
        Ere::LineEnd => past_leaves(alloc, ere, text, window, from),
    }
}
