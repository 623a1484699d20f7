//! The derivations of an expression, listed one by one: the definitions as a plain, slow program, for small
//! texts.
ghost use Rattle.std.specs.Prelude.{◌≡◌, ℕ, ◌==◌, ◌++◌, ◌+◌, ◌<◌, ◌^◌, ◌↔◌, List, [], ◌∷◌, length, drop, IsTrue, IfOk, OnOk, map, slice_index};
ghost use Rattle.ere_tree.specs.Derivation.{part, parts, members};
ghost use Rattle.ere_slow.specs.Listing.{found_of, begun_of, stands, is_one_of, further, found_of_row, found_inside, all_ways, all_at, leaf_at, text_at, begin_at, parts_at, members_at, each_longer, Lists, ListsRows, AddsBehind, AddsChosen};
ghost use Rattle.ere_tree.specs.Tree as trees;
ghost use Rattle.ere_tree.specs.View.{view, trees_in, members_of};
ghost use Rattle.std.specs.FinMap.{empty};
ghost use Rattle.ere_tree.specs.Captures.{cap_of, caps_of};
ghost use Rattle.ere_tree.specs.Hit.{FindsHit};
ghost use Rattle.ere_slow.specs.Slow.{AreDerivations, AreAllDerivations, IsPreferredTo, IsMostPreferred, IsBestOf, FitBehind, HasNoHitBefore, ShowsHit, TellsHitOf, DerivesFrom, FindsDerived, FindsHitAt};
ghost use Rattle.ere_slow.specs.WayView.{captures_of};

use crate::begin::may_begin;
use crate::limit::Limit;
use crate::settings::GroupSettings;
use crate::way::{OwnedStep, OwnedWay, OwnedWays};
use ere_tree::{ByteSet, Cap, Caps, Ere, EreList, Hit};
use std::alloc::{AllocError, Global};
use std::cmp::Ordering;

/// A derivation: its way, where it ends, and the captures behind it.
#[derive(Drop, Debug)]
pub struct Derivation {
    pub way: OwnedWay,
    pub to: usize,
    pub captures: GroupSettings,
}

/// Where derivations begin: a place of a text, and the captures before it.
#[derive(Drop)]
struct Origin<'a> {
    text: &'a [u8],
    from: usize,
    captures: &'a GroupSettings,
}

/// The derivations of parts or members one behind the other, where the last ends, and the captures behind it.
#[derive(Drop, Debug)]
struct Row {
    ways: OwnedWays,
    to: usize,
    captures: GroupSettings,
}

/// The bytes from `from` to `to`, as far as the text goes.
fn part_of(text: &[u8], from: usize, to: usize) -> &[u8]
    ensures { result.now ≡ part text.now from to }
{
    let start = from.min(text.len());
    let end = to.min(text.len()).max(start);
    &text[start..end]
}

/// Whether the bytes stand in the text at `from`.
pub(crate) fn stands_at(text: &[u8], from: usize, bytes: &[u8], fold: bool) -> bool
    ensures { result ≡ stands fold text.now from bytes.now }
{
    if from > text.len() || bytes.len() > text.len() - from {
        return false;
    }
    let here = &text[from..from + bytes.len()];
    if fold {
        here.eq_ignore_ascii_case(bytes)
    } else {
        here == bytes
    }
}

fn is_newline_at(text: &[u8], at: usize) -> bool
    ensures { result ≡ (slice_index text.now at == 10) }
{
    at < text.len() && text[at] == b'\n'
}

pub(crate) fn is_in_set_at(set: &ByteSet, text: &[u8], at: usize) -> bool
    ensures { result ≡ is_one_of (members_of set.now.bits) text.now at }
{
    at < text.len() && set.has(text[at])
}

/// The one derivation with nothing to choose, if the test holds.
fn leaf_if(
    alloc: Global,
    origin: &Origin<'_>,
    test: bool,
    to: usize,
    limit: &mut Limit,
) -> Result<Vec<Derivation>, AllocError>
    ensures { IfOk result (Lists (leaf_at origin.now test to)) }
{
    let mut found = Vec::new(alloc);
    if test {
        limit.take(origin.captures.steps())?;
        let captures = origin.captures.copy(alloc)?;
        found.push(Derivation {
            way: OwnedWay::Leaf,
            to,
            captures,
        })?;
    }
    Ok(found)
}

/// The derivation of bytes, wherever they stand.
fn text_ways(
    alloc: Global,
    origin: &Origin<'_>,
    bytes: &[u8],
    fold: bool,
    limit: &mut Limit,
) -> Result<Vec<Derivation>, AllocError>
    ensures { IfOk result (Lists (text_at origin.now fold bytes.now)) }
{
    if stands_at(origin.text, origin.from, bytes, fold) {
        leaf_if(alloc, origin, true, origin.from + bytes.len(), limit)
    } else {
        Ok(Vec::new(alloc))
    }
}

/// The derivation of a byte of a set, wherever it stands.
fn set_ways(
    alloc: Global,
    origin: &Origin<'_>,
    set: &ByteSet,
    limit: &mut Limit,
) -> Result<Vec<Derivation>, AllocError>
    ensures { IfOk result (Lists (all_at origin.now (trees.set (members_of set.now.bits)))) }
{
    if is_in_set_at(set, origin.text, origin.from) {
        leaf_if(alloc, origin, true, origin.from + 1, limit)
    } else {
        Ok(Vec::new(alloc))
    }
}

/// All rows of one row and one derivation behind it; one that is empty only if it may be.
fn put_behind(
    alloc: Global,
    row: &Row,
    found: Vec<Derivation>,
    may_be_empty: bool,
    rows: &mut Vec<Row>,
    limit: &mut Limit,
) -> Result<(), AllocError>
    ensures { OnOk result (AddsBehind may_be_empty row.now found rows.old rows.new) }
{
    let steps = row.ways.steps().saturating_add(1);
    for one in found {
        if may_be_empty || row.to < one.to {
            limit.take(steps)?;
            let mut ways = row.ways.copy(alloc)?;
            ways.held.push(OwnedStep {
                to: one.to,
                way: one.way,
            })?;
            rows.push(Row {
                ways,
                to: one.to,
                captures: one.captures,
            })?;
        }
    }
    Ok(())
}

/// Each row with each derivation of the expression behind it.
#[cycle(ways)]
fn go_on(
    alloc: Global,
    ere: &Ere,
    text: &[u8],
    rows: &[Row],
    may_be_empty: bool,
    limit: &mut Limit,
) -> Result<Vec<Row>, AllocError>
    ensures { IfOk result (ListsRows (each_longer may_be_empty text.now (view ere.now) rows.now)) }
{
    let mut longer = Vec::new(alloc);
    for row in rows {
        let origin = Origin {
            text,
            from: row.to,
            captures: &row.captures,
        };
        let found = ways_of(alloc, ere, &origin, limit)?;
        put_behind(alloc, row, found, may_be_empty, &mut longer, limit)?;
    }
    Ok(longer)
}

/// The row of no derivation, at a place of the text.
fn start(alloc: Global, origin: &Origin<'_>, limit: &mut Limit) -> Result<Vec<Row>, AllocError>
    ensures { IfOk result (ListsRows (begin_at origin.now)) }
{
    let mut rows = Vec::new(alloc);
    if origin.from > origin.text.len() {
        return Ok(rows);
    }
    limit.take(origin.captures.steps())?;
    let captures = origin.captures.copy(alloc)?;
    let ways = OwnedWays {
        held: Vec::new(alloc),
    };
    rows.push(Row {
        ways,
        to: origin.from,
        captures,
    })?;
    Ok(rows)
}

/// The derivations of all parts one behind the other.
#[cycle(ways)]
fn rows_of_parts(
    alloc: Global,
    all: &EreList,
    origin: &Origin<'_>,
    limit: &mut Limit,
) -> Result<Vec<Row>, AllocError>
    ensures { IfOk result (ListsRows (parts_at origin.now (trees_in all.now))) }
{
    let mut rows = start(alloc, origin, limit)?;
    for part in all.as_slice() {
        rows = go_on(alloc, part, origin.text, rows.as_slice(), true, limit)?;
    }
    Ok(rows)
}

/// The derivations of `least` members one behind the other, and of up to `more` others that aren't empty.
#[cycle(ways)]
fn rows_of_members(
    alloc: Global,
    inner: &Ere,
    origin: &Origin<'_>,
    least: u32,
    more: usize,
    limit: &mut Limit,
) -> Result<Vec<Row>, AllocError>
    ensures { IfOk result (ListsRows (members_at origin.now (view inner.now) least more)) }
{
    let mut rows = start(alloc, origin, limit)?;
    for _ in 0..least {
        rows = go_on(alloc, inner, origin.text, rows.as_slice(), true, limit)?;
    }
    let mut all = Vec::new(alloc);
    for _ in 0..more {
        if rows.is_empty() {
            return Ok(all);
        }
        let longer = go_on(alloc, inner, origin.text, rows.as_slice(), false, limit)?;
        all.append(&mut rows)?;
        rows = longer;
    }
    all.append(&mut rows)?;
    Ok(all)
}

/// The derivations of a concatenation from those of its parts in a row.
fn found_parts(alloc: Global, rows: Vec<Row>) -> Result<Vec<Derivation>, AllocError>
    ensures { IfOk result (Lists (map (found_of_row parts) (map begun_of rows.items))) }
{
    let mut found = Vec::new(alloc);
    for row in rows {
        found.push(Derivation {
            way: OwnedWay::Parts(row.ways),
            to: row.to,
            captures: row.captures,
        })?;
    }
    Ok(found)
}

/// The derivations of a repeat from those of its members in a row.
fn found_members(alloc: Global, rows: Vec<Row>) -> Result<Vec<Derivation>, AllocError>
    ensures { IfOk result (Lists (map (found_of_row members) (map begun_of rows.items))) }
{
    let mut found = Vec::new(alloc);
    for row in rows {
        found.push(Derivation {
            way: OwnedWay::Members(row.ways),
            to: row.to,
            captures: row.captures,
        })?;
    }
    Ok(found)
}

/// The derivations of a group from `from`, from those of what it holds.
fn found_in_group(
    alloc: Global,
    held: Vec<Derivation>,
    number: u32,
    from: usize,
    limit: &mut Limit,
) -> Result<Vec<Derivation>, AllocError>
    ensures { IfOk result (Lists (map (found_inside number from) (map found_of held.items))) }
{
    let mut found = Vec::new(alloc);
    for one in held {
        limit.take(3)?;
        let mut captures = one.captures;
        captures.set(number, from, one.to)?;
        let way = Box::new(alloc, one.way)?;
        found.push(Derivation {
            way: OwnedWay::Inside(way),
            to: one.to,
            captures,
        })?;
    }
    Ok(found)
}

/// Adds the derivations of an alternation from those of one of its alternatives.
fn put_chosen(
    alloc: Global,
    index: usize,
    held: Vec<Derivation>,
    found: &mut Vec<Derivation>,
    limit: &mut Limit,
) -> Result<(), AllocError>
    ensures { OnOk result (AddsChosen index held found.old found.new) }
{
    for one in held {
        limit.take(3)?;
        let way = Box::new(alloc, one.way)?;
        found.push(Derivation {
            way: OwnedWay::Chosen { index, way },
            to: one.to,
            captures: one.captures,
        })?;
    }
    Ok(())
}

/// The derivations of the alternatives, in their order.
#[cycle(ways)]
fn ways_of_alternatives(
    alloc: Global,
    all: &EreList,
    origin: &Origin<'_>,
    limit: &mut Limit,
) -> Result<Vec<Derivation>, AllocError>
    ensures { IfOk result (Lists (all_at origin.now (trees.alt (trees_in all.now)))) }
{
    let mut found = Vec::new(alloc);
    for (index, one) in all.as_slice().iter().enumerate() {
        let held = ways_of(alloc, one, origin, limit)?;
        put_chosen(alloc, index, held, &mut found, limit)?;
    }
    Ok(found)
}

/// How many members more than `least` a repeat may have, with `left` bytes behind its start.
/// None where it can have none at all.
fn further_members(least: u32, most: Option<u32>, left: usize) -> Option<usize>
    ensures { result ≡ further least most left }
{
    match most {
        None => Some(left),
        Some(most) if most < least => None,
        Some(most) => Some(left.min((most - least) as usize)),
    }
}

/// The derivations of a repeat.
#[cycle(ways)]
fn ways_of_repeat(
    alloc: Global,
    inner: &Ere,
    least: u32,
    most: Option<u32>,
    origin: &Origin<'_>,
    limit: &mut Limit,
) -> Result<Vec<Derivation>, AllocError>
    ensures { IfOk result (Lists (all_at origin.now (trees.repeat (view inner.now) least most))) }
{
    match further_members(least, most, origin.text.len().saturating_sub(origin.from)) {
        None => Ok(Vec::new(alloc)),
        Some(more) => found_members(
            alloc,
            rows_of_members(alloc, inner, origin, least, more, limit)?,
        ),
    }
}

/// The derivations of an expression from one place and with the same captures.
#[cycle(ways)]
fn ways_of(
    alloc: Global,
    ere: &Ere,
    origin: &Origin<'_>,
    limit: &mut Limit,
) -> Result<Vec<Derivation>, AllocError>
    ensures { IfOk result (Lists (all_at origin.now (view ere.now))) }
{
    let text = origin.text;
    let from = origin.from;
    match ere {
        Ere::Empty => leaf_if(alloc, origin, from <= text.len(), from, limit),
        Ere::Plain(run) => text_ways(alloc, origin, run.as_slice(), false, limit),
        Ere::Set(set) => set_ways(alloc, origin, set, limit),
        Ere::LineStart => {
            let starts = from == 0 || is_newline_at(text, from - 1);
            leaf_if(alloc, origin, starts, from, limit)
        }
        Ere::LineEnd => {
            let ends = from == text.len() || is_newline_at(text, from);
            leaf_if(alloc, origin, ends, from, limit)
        }
        Ere::Cat(all) => found_parts(alloc, rows_of_parts(alloc, all, origin, limit)?),
        Ere::Alt(all) => ways_of_alternatives(alloc, all, origin, limit),
        Ere::Repeat { inner, least, most } => {
            ways_of_repeat(alloc, inner, *least, *most, origin, limit)
        }
        Ere::Group { number, inner } => {
            let held = ways_of(alloc, inner, origin, limit)?;
            found_in_group(alloc, held, *number, from, limit)
        }
        Ere::Ref { number, fold } => match origin.captures.get(*number) {
            None => Ok(Vec::new(alloc)),
            Some((start, end)) => text_ways(alloc, origin, part_of(text, start, end), *fold, limit),
        },
    }
}

/// All derivations of the expression in the slice `text` from the place `from`, with no group set before. They
/// come in the order in which `all_ways` lists them, which isn't that of preference.
#[tactic(auto, using(crate::proofs::SlowLemmas::listed_derive))]
pub fn derivations(
    alloc: Global,
    ere: &Ere,
    text: &[u8],
    from: usize,
    limit: &mut Limit,
) -> Result<Vec<Derivation>, AllocError>
    ensures sound { IfOk result (λ all. AreDerivations text.now (view ere.now) from empty all.items) }
    ensures complete { IfOk result (λ all.
        AreAllDerivations text.now (view ere.now) from empty all.items) }
    ensures order { IfOk result (Lists (all_ways text.now (view ere.now) from empty)) }
{
    let unset = GroupSettings::none(alloc);
    let origin = Origin {
        text,
        from,
        captures: &unset,
    };
    ways_of(alloc, ere, &origin, limit)
}

/// Whether the first derivation is preferred to the second.
fn is_preferred(one: &Derivation, other: &Derivation) -> bool
    ensures { IsTrue result ↔ IsPreferredTo one.now other.now }
{
    other.to.cmp(&one.to).then(one.way.compare(&other.way)) == Ordering::Less
}

/// The most preferred of some derivations and one more.
fn better(held: Option<Derivation>, one: Derivation) -> Derivation
    ensures { (ds : List Derivation) → IsBestOf ds held → IsMostPreferred (ds ++ one ∷ []) result }
{
    match held {
        None => one,
        Some(best) => { if is_preferred(&one, &best) { one } else { best } }
    }
}

/// Of derivations from one place, one to which no other is preferred. None if there are none.
fn most_preferred(found: Vec<Derivation>) -> Option<Derivation>
    ensures { IsBestOf found.items result }
{
    let mut best = None;
    for one in found {
        best = Some(better(best, one));
    }
    best
}

/// What the group holds, with offsets of a text in which the slice begins at `start`.
fn cap(captures: &GroupSettings, number: u32, start: usize) -> Option<Cap>
    requires { FitBehind start (captures_of captures.now) }
    ensures { result ≡ cap_of start (captures_of captures.now) number }
{
    match captures.get(number) {
        Some((from, to)) => Some(Cap {
            from: start + from,
            to: start + to,
        }),
        None => None,
    }
}

/// What each of so many groups holds, group 1 first.
fn all_caps(
    alloc: Global,
    captures: &GroupSettings,
    groups: u32,
    start: usize,
) -> Result<Caps, AllocError>
    requires { FitBehind start (captures_of captures.now) }
    ensures { IfOk result (λ caps. caps ≡ caps_of start (captures_of captures.now) groups) }
{
    let mut all = Vec::new(alloc);
    for before in 0..groups {
        all.push(cap(captures, before + 1, start))?;
    }
    Ok(Caps::from_vec(all))
}

/// The most preferred derivation of the expression from a place of a slice before which none begins.
fn derived_from(
    alloc: Global,
    ere: &Ere,
    slice: &[u8],
    start: usize,
    limit: &mut Limit,
) -> Result<Option<Derivation>, AllocError>
    requires { HasNoHitBefore slice.now (view ere.now) start }
    ensures { IfOk result (DerivesFrom slice.now (view ere.now) start) }
{
    if !may_begin(ere, slice, start) {
        return Ok(None);
    }
    Ok(most_preferred(derivations(alloc, ere, slice, start, limit)?))
}

/// The most preferred derivation of the expression from the first place of a slice that has one, with that place.
fn first_derived(
    alloc: Global,
    ere: &Ere,
    slice: &[u8],
) -> Result<Option<(usize, Derivation)>, AllocError>
    ensures { IfOk result (FindsDerived slice.now (view ere.now)) }
{
    let mut limit = Limit::new();
    for start in 0..slice.len() + 1 {
        if let Some(best) = derived_from(alloc, ere, slice, start, &mut limit)? {
            return Ok(Some((start, best)));
        }
    }
    Ok(None)
}

/// The text behind its first `from` bytes, where it has so many.
fn behind(text: &[u8], from: usize) -> &[u8]
    ensures value { result.now ≡ drop from text.now }
    ensures fits { from + length result.now < 2 ^ 64 }
{
    text.split_at(from.min(text.len())).1
}

/// The hit of a slice, with offsets of a text in which the slice begins at `from`.
fn raised(
    alloc: Global,
    ere: &Ere,
    slice: &[u8],
    from: usize,
    start: usize,
    best: &Derivation,
) -> Result<Hit, AllocError>
    requires hit { ShowsHit slice.now (view ere.now) start best.now }
    requires fits { from + length slice.now < 2 ^ 64 }
    ensures { IfOk result (TellsHitOf slice.now (view ere.now) from) }
{
    let groups = all_caps(alloc, &best.captures, ere.groups(), from)?;
    Ok(Hit {
        from: from + start,
        to: from + best.to,
        groups,
    })
}

/// The hit of the expression in the slice of the text from `from` on, with offsets of the whole text. Behind the
/// text's end that slice is empty.
pub fn slow_hit(
    alloc: Global,
    ere: &Ere,
    text: &[u8],
    from: usize,
) -> Result<Option<Hit>, AllocError>
    ensures hit { IfOk result (FindsHit text.now (view ere.now) from) }
{
    let slice = behind(text, from);
    match first_derived(alloc, ere, slice)? {
        None => Ok(None),
        Some((start, best)) => Ok(Some(raised(alloc, ere, slice, from, start, &best)?)),
    }
}

/// The hit of the expression in the slice of the text from `from` on, as `slow_hit` tells it, where it begins at the place
/// `start` of that slice, and none begins before it.
pub fn slow_hit_from(
    alloc: Global,
    ere: &Ere,
    text: &[u8],
    from: usize,
    start: usize,
    limit: &mut Limit,
) -> Result<Option<Hit>, AllocError>
    requires before { HasNoHitBefore (drop from text.now) (view ere.now) start }
    ensures hit { IfOk result (FindsHitAt text.now (view ere.now) from start) }
{
    let slice = behind(text, from);
    match derived_from(alloc, ere, slice, start, limit)? {
        None => Ok(None),
        Some(best) => Ok(Some(raised(alloc, ere, slice, from, start, &best)?)),
    }
}
