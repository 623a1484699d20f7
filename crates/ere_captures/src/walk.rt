//! The preferred way down an expression, and the captures that it sets.
ghost use Rattle.std.specs.Prelude.{◌≡◌, ℕ, ◌+◌, ◌<◌, ◌≤◌, ◌^◌, false, length, map, IfOk, OnOk};
ghost use Rattle.ere_captures.specs.Best.{AreBestCaps};
ghost use Rattle.ere_captures.specs.Walk.{SetsGroup, SetsPart, SetsSpan, views};
ghost use Rattle.ere_places.specs.Places.{SpanAll, SpanOne};
ghost use Rattle.ere_tree.specs.Derivation.{Spans};
ghost use Rattle.ere_tree.specs.Shape.{has_refs, any_has_refs, greatest_group, greatest_group_of};
ghost use Rattle.ere_tree.specs.Tree as trees;
ghost use Rattle.ere_tree.specs.Tree.{trees_of};
ghost use Rattle.ere_tree.specs.View.{view};

use crate::ends::part_end;
use crate::input::Input;
use crate::members::{less_one, rest, rest_behind};
use crate::rest::{greatest_end, spans};
use ere_places::Seen;
use ere_tree::{Cap, Caps, Ere};
use std::alloc::{AllocError, Global};

/// A part of a slice that begins in a text at `start`.
#[derive(Clone, Copy)]
struct Part {
    start: usize,
    from: usize,
    to: usize,
}

/// Sets what a group holds.
fn set_group(caps: &mut [Option<Cap>], number: u32, part: Part)
    requires number { number ≤ length caps.old }
    requires from { part.start + part.from < 2 ^ 64 }
    requires to { part.start + part.to < 2 ^ 64 }
    ensures { SetsGroup part number caps.old caps.new }
{
    if number > 0 {
        caps[(number - 1) as usize] = Some(Cap {
            from: part.start + part.from,
            to: part.start + part.to,
        });
    }
}

/// Through the parts of a concatenation, each as long as can be.
#[cycle(walk)]
fn walk_parts(
    alloc: Global,
    parts: &[Ere],
    text: &[u8],
    part: Part,
    caps: &mut [Option<Cap>],
) -> Result<(), AllocError>
    requires no_refs { any_has_refs (trees_of (map view parts.now)) ≡ false }
    requires span { SpanAll text.now (map view parts.now) part.from part.to }
    requires room { greatest_group_of (trees_of (map view parts.now)) ≤ length caps.old }
    requires fits { part.start + length text.now < 2 ^ 64 }
    ensures { OnOk result (SetsPart text.now (trees.cat (views parts.now)) part caps.old caps.new) }
{
    let input = Input {
        text,
        from: part.from,
        to: part.to,
    };
    let mut held: Vec<Seen> = Vec::new(alloc);
    let mut from = part.from;
    let mut rest = parts;
    while let Some((one, others)) = rest.split_first() {
        let to = part_end(alloc, one, others, &input, from, &mut held)?;
        walk(alloc, one, text, Part { from, to, ..part }, caps)?;
        from = to;
        rest = others;
    }
    Ok(())
}

/// Down the first alternative that spans the part.
#[cycle(walk)]
fn walk_one(
    alloc: Global,
    choices: &[Ere],
    text: &[u8],
    part: Part,
    caps: &mut [Option<Cap>],
) -> Result<(), AllocError>
    requires no_refs { any_has_refs (trees_of (map view choices.now)) ≡ false }
    requires span { SpanOne text.now (map view choices.now) part.from part.to }
    requires room { greatest_group_of (trees_of (map view choices.now)) ≤ length caps.old }
    requires fits { part.start + length text.now < 2 ^ 64 }
    ensures { OnOk result (SetsPart text.now (trees.alt (views choices.now)) part caps.old caps.new) }
{
    for one in choices {
        if spans(alloc, one, text, part.from, part.to)? {
            return walk(alloc, one, text, part, caps);
        }
    }
    Ok(())
}

/// Through the members of a repeat, each as long as can be.
#[cycle(walk)]
fn walk_members(
    alloc: Global,
    inner: &Ere,
    least: u32,
    most: Option<u32>,
    text: &[u8],
    part: Part,
    caps: &mut [Option<Cap>],
) -> Result<(), AllocError>
    requires no_refs { has_refs (view inner.now) ≡ false }
    requires span { Spans text.now (trees.repeat (view inner.now) least most) part.from part.to }
    requires room { greatest_group (view inner.now) ≤ length caps.old }
    requires fits { part.start + length text.now < 2 ^ 64 }
    ensures { OnOk result (SetsPart text.now (trees.repeat (view inner.now) least most) part caps.old caps.new) }
{
    let mut from = part.from;
    let mut least = least;
    let mut most = most;
    let fewer = least.saturating_sub(1);
    let input = Input {
        text,
        from: part.from,
        to: part.to,
    };
    let mut set = rest(alloc, inner, fewer, less_one(most), &input)?;
    while least > 0 || from < part.to {
        let to = greatest_end(alloc, inner, text, from, part.to, &set)?;
        walk(alloc, inner, text, Part { from, to, ..part }, caps)?;
        from = to;
        set = rest_behind(alloc, inner, least, most, &input, set)?;
        least = least.saturating_sub(1);
        most = less_one(most);
    }
    Ok(())
}

/// Sets the captures of the preferred way down the expression, which spans the part.
#[cycle(walk)]
fn walk(
    alloc: Global,
    ere: &Ere,
    text: &[u8],
    part: Part,
    caps: &mut [Option<Cap>],
) -> Result<(), AllocError>
    requires no_refs { has_refs (view ere.now) ≡ false }
    requires span { Spans text.now (view ere.now) part.from part.to }
    requires room { greatest_group (view ere.now) ≤ length caps.old }
    requires fits { part.start + length text.now < 2 ^ 64 }
    ensures { OnOk result (SetsPart text.now (view ere.now) part caps.old caps.new) }
{
    if ere.groups() == 0 {
        return Ok(());
    }
    match ere {
        Ere::Cat(parts) => walk_parts(alloc, parts.as_slice(), text, part, caps),
        Ere::Alt(choices) => walk_one(alloc, choices.as_slice(), text, part, caps),
        Ere::Repeat { inner, least, most } => {
            walk_members(alloc, inner, *least, *most, text, part, caps)
        }
        Ere::Group { number, inner } => {
            walk(alloc, inner, text, part, caps)?;
            set_group(caps, *number, part);
            Ok(())
        }
        Ere::Empty | Ere::Plain(_) | Ere::Set(_) => Ok(()),
        Ere::LineStart | Ere::LineEnd | Ere::Ref { .. } => Ok(()),
    }
}

/// Sets what the groups of the expression hold in a span of a slice: by the most preferred of its derivations there, with
/// offsets of a text in which the slice begins at `start`. Other groups hold what they did.
pub fn set_captures(
    alloc: Global,
    ere: &Ere,
    slice: &[u8],
    start: usize,
    span: Cap,
    caps: &mut [Option<Cap>],
) -> Result<(), AllocError>
    requires no_refs { has_refs (view ere.now) ≡ false }
    requires span { Spans slice.now (view ere.now) span.from span.to }
    requires room { greatest_group (view ere.now) ≤ length caps.old }
    requires fits { start + length slice.now < 2 ^ 64 }
    ensures { OnOk result (SetsSpan slice.now (view ere.now) start span caps.old caps.new) }
{
    let Cap { from, to } = span;
    walk(alloc, ere, slice, Part { start, from, to }, caps)
}

/// The captures of the expression inside [from, to) of a slice, which it spans: those of the most preferred of its
/// derivations there, with offsets of a text in which the slice begins at `start`.
pub fn captures(
    alloc: Global,
    ere: &Ere,
    slice: &[u8],
    from: usize,
    to: usize,
    start: usize,
) -> Result<Caps, AllocError>
    requires no_refs { has_refs (view ere.now) ≡ false }
    requires span { Spans slice.now (view ere.now) from to }
    requires fits { start + length slice.now < 2 ^ 64 }
    ensures { IfOk result (AreBestCaps slice.now (view ere.now) from to start) }
{
    let mut caps: Vec<Option<Cap>> = Vec::new(alloc);
    for _ in 0..ere.groups() {
        caps.push(None)?;
    }
    walk(alloc, ere, slice, Part { start, from, to }, &mut caps)?;
    Ok(Caps::from_vec(caps))
}
