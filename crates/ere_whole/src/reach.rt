//! Where an expression leads, from block to block. Parts, members and blocks are taken in halves, so the depth of calls
//! grows with the logarithm of their number alone.
ghost use Rattle.std.specs.Prelude.{◌≡◌, ◌≤◌, ◌<◌, ◌*◌, None, false, length, map};
ghost use Rattle.ere_tree.specs.Derivation.{Spans};
ghost use Rattle.ere_tree.specs.Shape.{has_refs, any_has_refs};
ghost use Rattle.ere_tree.specs.Tree.{trees_of, repeat};
ghost use Rattle.ere_tree.specs.View.{view};
ghost use Rattle.ere_places.specs.Places.{SpanAll, SpanOne};
ghost use Rattle.ere_whole.specs.Places.{AreInside, AreMembers, AreReached, ChainAny, PastBlock};

use crate::leaf::past_leaf;
use crate::places::{Places, WIDTH};
use ere_tree::Ere;

/// The places of a block to which the parts lead, one behind the other.
#[cycle(image)]
fn through(parts: &[Ere], text: &[u8], from: &Places, block: usize) -> Places
    requires no_refs { any_has_refs (trees_of (map view parts.now)) ≡ false }
    requires order { from.now.block ≤ block }
    requires within { block * 256 ≤ length text.now }
    requires inside { AreInside text.now from.now }
    ensures block { result.block ≡ block }
    ensures exact { AreReached (SpanAll text.now (map view parts.now)) from.now result }
{
    if parts.is_empty() {
        return from.only_in(block);
    }
    if from.is_empty() {
        return Places::none(block);
    }
    if parts.len() == 1 {
        return image(&parts[0], text, from, block);
    }
    let (first, rest) = parts.split_at(parts.len() / 2);
    let mut found = Places::none(block);
    for middle in from.block..block + 1 {
        let between = through(first, text, from, middle);
        let there = through(rest, text, &between, block);
        found.add(&there);
    }
    found
}

/// The places of a block to which one of the alternatives leads.
#[cycle(image)]
fn by_one(choices: &[Ere], text: &[u8], from: &Places, block: usize) -> Places
    requires no_refs { any_has_refs (trees_of (map view choices.now)) ≡ false }
    requires order { from.now.block ≤ block }
    requires within { block * 256 ≤ length text.now }
    requires inside { AreInside text.now from.now }
    ensures block { result.block ≡ block }
    ensures exact { AreReached (SpanOne text.now (map view choices.now)) from.now result }
{
    let mut found = Places::none(block);
    for one in choices {
        let there = image(one, text, from, block);
        found.add(&there);
    }
    found
}

/// The places of a block to which at least so many members lead, and at most one.
#[cycle(image)]
fn by_one_member(inner: &Ere, least: usize, text: &[u8], from: &Places, block: usize) -> Places
    requires no_refs { has_refs (view inner.now) ≡ false }
    requires bounds { least ≤ 1 }
    requires order { from.now.block ≤ block }
    requires within { block * 256 ≤ length text.now }
    requires inside { AreInside text.now from.now }
    ensures block { result.block ≡ block }
    ensures exact { AreMembers text.now (view inner.now) least 1 from.now result }
{
    let mut found = image(inner, text, from, block);
    if least == 1 {
        return found;
    }
    let none_more = from.only_in(block);
    found.add(&none_more);
    found
}

/// The places of a block to which at least and at most so many members lead.
#[cycle(image)]
fn by_members(
    inner: &Ere,
    least: usize,
    most: usize,
    text: &[u8],
    from: &Places,
    block: usize,
) -> Places
    requires no_refs { has_refs (view inner.now) ≡ false }
    requires bounds { least ≤ most }
    requires order { from.now.block ≤ block }
    requires within { block * 256 ≤ length text.now }
    requires inside { AreInside text.now from.now }
    ensures block { result.block ≡ block }
    ensures exact { AreMembers text.now (view inner.now) least most from.now result }
{
    if most == 0 {
        return from.only_in(block);
    }
    if from.is_empty() {
        return Places::none(block);
    }
    if most == 1 {
        return by_one_member(inner, least, text, from, block);
    }
    let half = most / 2;
    let rest = least.saturating_sub(half);
    let mut found = Places::none(block);
    for middle in from.block..block + 1 {
        let between = by_members(inner, least.min(half), half, text, from, middle);
        if least == 0 && block == from.block && between.is_same(from) {
            return between;
        }
        let there = by_members(inner, rest, most - half, text, &between, block);
        found.add(&there);
    }
    found
}

/// The places of a block to which a member leads that goes past the block `last`, with any number of members behind it.
#[cycle(image)]
fn by_any_past(inner: &Ere, last: usize, text: &[u8], from: &Places, block: usize) -> Places
    requires no_refs { has_refs (view inner.now) ≡ false }
    requires earlier { from.now.block ≤ last }
    requires order { last < block }
    requires within { block * 256 ≤ length text.now }
    requires inside { AreInside text.now from.now }
    ensures block { result.block ≡ block }
    ensures exact { AreReached (PastBlock last (Spans text.now (view inner.now))
        (ChainAny (Spans text.now (view inner.now)))) from.now result }
{
    let mut found = Places::none(block);
    for middle in last + 1..block + 1 {
        let between = image(inner, text, from, middle);
        let there = by_any(inner, text, &between, block);
        found.add(&there);
    }
    found
}

/// The places of a block to which any number of members leads. Over several blocks one of the members leads from the
/// first half of them into the second.
#[cycle(image)]
fn by_any(inner: &Ere, text: &[u8], from: &Places, block: usize) -> Places
    requires no_refs { has_refs (view inner.now) ≡ false }
    requires order { from.now.block ≤ block }
    requires within { block * 256 ≤ length text.now }
    requires inside { AreInside text.now from.now }
    ensures block { result.block ≡ block }
    ensures exact { AreReached (ChainAny (Spans text.now (view inner.now))) from.now result }
{
    if from.is_empty() {
        return Places::none(block);
    }
    if from.block == block {
        return by_members(inner, 0, WIDTH, text, from, block);
    }
    let last = from.block + (block - from.block - 1) / 2;
    let mut found = Places::none(block);
    for middle in from.block..last + 1 {
        let between = by_any(inner, text, from, middle);
        let there = by_any_past(inner, last, text, &between, block);
        found.add(&there);
    }
    found
}

/// The places of a block to which at least so many members lead.
#[cycle(image)]
fn by_at_least(inner: &Ere, least: usize, text: &[u8], from: &Places, block: usize) -> Places
    requires no_refs { has_refs (view inner.now) ≡ false }
    requires order { from.now.block ≤ block }
    requires within { block * 256 ≤ length text.now }
    requires inside { AreInside text.now from.now }
    ensures block { result.block ≡ block }
    ensures exact { AreReached
        (Spans text.now (repeat (view inner.now) least None)) from.now result }
{
    let mut found = Places::none(block);
    for middle in from.block..block + 1 {
        let between = by_members(inner, least, least, text, from, middle);
        let there = by_any(inner, text, &between, block);
        found.add(&there);
    }
    found
}

/// The places of a block to which a repeat leads.
#[cycle(image)]
fn by_repeat(
    inner: &Ere,
    least: u32,
    most: Option<u32>,
    text: &[u8],
    from: &Places,
    block: usize,
) -> Places
    requires no_refs { has_refs (view inner.now) ≡ false }
    requires order { from.now.block ≤ block }
    requires within { block * 256 ≤ length text.now }
    requires inside { AreInside text.now from.now }
    ensures block { result.block ≡ block }
    ensures exact { AreReached
        (Spans text.now (repeat (view inner.now) least most)) from.now result }
{
    match most {
        None => by_at_least(inner, least as usize, text, from, block),
        Some(most) if most < least => Places::none(block),
        Some(most) => by_members(inner, least as usize, most as usize, text, from, block),
    }
}

/// The places of a block to which the expression leads.
#[cycle(image)]
pub(crate) fn image(ere: &Ere, text: &[u8], from: &Places, block: usize) -> Places
    requires no_refs { has_refs (view ere.now) ≡ false }
    requires order { from.now.block ≤ block }
    requires within { block * 256 ≤ length text.now }
    requires inside { AreInside text.now from.now }
    ensures block { result.block ≡ block }
    ensures exact { AreReached (Spans text.now (view ere.now)) from.now result }
{
    match ere {
        Ere::Cat(parts) => through(parts.as_slice(), text, from, block),
        Ere::Alt(choices) => by_one(choices.as_slice(), text, from, block),
        Ere::Group { inner, .. } => image(inner, text, from, block),
        Ere::Repeat { inner, least, most } => by_repeat(inner, *least, *most, text, from, block),
        Ere::Ref { .. } => Places::none(block),
        Ere::Empty => past_leaf(ere, text, from, block),
        Ere::Plain(_) => past_leaf(ere, text, from, block),
        Ere::Set(_) => past_leaf(ere, text, from, block),
        Ere::LineStart => past_leaf(ere, text, from, block),
        Ere::LineEnd => past_leaf(ere, text, from, block),
    }
}
