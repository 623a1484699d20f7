//! A walk along an expression.
ghost use Rattle.std.specs.Prelude.{◌≤◌, length, map, IfSome};
ghost use Rattle.ere_tree.specs.Tree as trees;
ghost use Rattle.ere_tree.specs.View.{view};
ghost use Rattle.ere_one.specs.Walk.{Tells, TellsLongest, IsOnlyEnd};

use crate::follow::{Follow, behind};
use crate::leaf::{walk_bytes, walk_line_end, walk_line_start, walk_set, walk_sets};
use ere_tree::Ere;

/// What a walk from a place tells.
#[derive(Clone, Copy, Debug, PartialEq, Eq)]
pub enum Walked {
    /// The longest span from there ends here.
    Ends(usize),
    /// No span begins there.
    Nowhere,
    /// There may be a choice.
    Unknown,
}

/// A walk along a repeat.
fn walk_repeat(
    inner: &Ere,
    least: u32,
    most: Option<u32>,
    slice: &[u8],
    at: usize,
    follow: Follow,
) -> Walked
    requires { at ≤ length slice.now }
    ensures { Tells slice.now (trees.repeat (view inner.now) least most) follow at result }
{
    match inner {
        Ere::Set(set) => walk_sets(set, least, most, slice, at, follow),
        Ere::Empty | Ere::Plain(_) | Ere::LineStart | Ere::LineEnd => Walked::Unknown,
        Ere::Cat(_) | Ere::Alt(_) | Ere::Ref { .. } => Walked::Unknown,
        Ere::Repeat { .. } | Ere::Group { .. } => Walked::Unknown,
    }
}

/// A walk along an expression that has this behind it.
#[cycle(walk)]
fn walk_before(ere: &Ere, slice: &[u8], at: usize, follow: Follow) -> Walked
    requires { at ≤ length slice.now }
    ensures { Tells slice.now (view ere.now) follow at result }
{
    match ere {
        Ere::Empty => Walked::Ends(at),
        Ere::Plain(run) => walk_bytes(run.as_slice(), slice, at),
        Ere::Set(set) => walk_set(set, slice, at),
        Ere::LineStart => walk_line_start(slice, at),
        Ere::LineEnd => walk_line_end(slice, at),
        Ere::Cat(parts) => walk_all(parts.as_slice(), slice, at, follow),
        Ere::Repeat { inner, least, most } => {
            walk_repeat(inner, *least, *most, slice, at, follow)
        }
        Ere::Group { inner, .. } => walk_before(inner, slice, at, follow),
        Ere::Alt(_) | Ere::Ref { .. } => Walked::Unknown,
    }
}

/// The same of expressions one behind the other.
#[cycle(walk)]
fn walk_all(parts: &[Ere], slice: &[u8], at: usize, follow: Follow) -> Walked
    requires { at ≤ length slice.now }
    ensures { Tells slice.now (trees.cat (trees.trees_of (map view parts.now))) follow at result }
{
    let mut place = at;
    for (index, part) in parts.iter().enumerate() {
        let this = behind(parts.split_at(index + 1).1, follow);
        match walk_before(part, slice, place, this) {
            Walked::Ends(end) => place = end,
            Walked::Nowhere => return Walked::Nowhere,
            Walked::Unknown => return Walked::Unknown,
        }
    }
    Walked::Ends(place)
}

/// Where the longest span of the expression ends that begins at the place, if that can be told from the bytes one after
/// the other.
pub fn walk(ere: &Ere, slice: &[u8], at: usize) -> Walked
    requires { at ≤ length slice.now }
    ensures { TellsLongest slice.now (view ere.now) at result }
{
    walk_before(ere, slice, at, Follow::End)
}

/// The end of the first part from the place, where the others go on from no other and that can be told from the bytes
/// one after the other.
pub fn only_end(first: &Ere, others: &[Ere], slice: &[u8], at: usize) -> Option<usize>
    requires { at ≤ length slice.now }
    ensures { IfSome result (IsOnlyEnd slice.now (view first.now) (trees.trees_of (map view others.now)) at) }
{
    match walk_before(first, slice, at, behind(others, Follow::Any)) {
        Walked::Ends(end) => Some(end),
        Walked::Nowhere | Walked::Unknown => None,
    }
}
