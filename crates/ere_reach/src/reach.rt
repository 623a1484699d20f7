//! The rows to which an expression leads from some rows.
ghost use Rattle.std.specs.Prelude.{◌≡◌, ℕ, ◌+◌, ◌-◌, ◌≤◌, false, map, List, [], ◌∷◌, IfOk, IsTrue, OnOk};
ghost use Rattle.ere_reach.specs.Leads.{Enters, FitsKnown, FitsText, LeadsFurther, LeadsUpTo, LeadsOver, LeadsThrough, IsClosed, MayHave, PutsBeyond, PutsClosed, KeepsRows, StandsAt};
ghost use Rattle.ere_reach.specs.Live.{HasRead, reads};
ghost use Rattle.ere_reach.specs.Memo.{AllHold, Holds, LeadsFrom, PutsFramed, tree_of};
ghost use Rattle.ere_reach.specs.Moving.{sets_one};
ghost use Rattle.ere_reach.specs.Refers.{IsFree};
ghost use Rattle.ere_reach.specs.Rows.{AreInside, AreSame, HasState, IsDone, IsFresh, IsIn, IsPut};
ghost use Rattle.ere_reach.specs.declared.rows.Rows.{Rows};
ghost use Rattle.ere_tree.specs.Shape.{has_refs};
ghost use Rattle.ere_tree.specs.Tree.{alt, back, repeat, trees_of};
ghost use Rattle.ere_tree.specs.View.{view};

use crate::budget::Budget;
use crate::closing::{Known, closed_over};
use crate::frame::{Frame, framed, set_in};
use crate::held::{Held, keep_with, kept, part_of};
use crate::live::{live_before, live_between, live_of, lives_from, without};
use crate::memo::{Memo, Start, Told};
use crate::moving::{has_byte, refers_or_sets, sets_one};
use crate::rows::Rows;
use crate::site::Site;
use ere_tree::{Cap, Ere};
use std::alloc::AllocError;

/// By an expression without references and groups that are read.
fn reach_freely<'e>(
    site: Site<'_>,
    ere: &'e Ere,
    rows: &Rows,
    live: &[u32],
    memo: &mut Memo<'e>,
    budget: &mut Budget,
) -> Result<Rows, AllocError>
    requires fits { FitsText site }
    requires inside { AreInside site.low site.high rows.now }
    requires refs { has_refs (view ere.now) ≡ false }
    requires sets { sets_one (view ere.now) live.now ≡ false }
    requires memo { AllHold site memo.old }
    ensures leads { IfOk result (LeadsOver site.entry (view ere.now) live.now rows.now) }
    ensures memo { OnOk result (AllHold site.entry memo.new) }
{
    let mut found = Rows::new(site.alloc, site.low);
    for row in &rows.rows {
        let ends = memo.asked.ends(
            site.alloc,
            ere,
            site.text,
            site.window(),
            row.places.as_slice(),
        )?;
        let held = kept(site.alloc, row.held.as_slice(), live)?;
        budget.take(row.places.len().saturating_add(site.weight()))?;
        found.put(held.as_slice(), ends.as_slice(), budget)?;
    }
    Ok(found)
}

/// By parts one behind the other.
#[cycle(reach)]
fn reach_through<'e>(
    site: Site<'_>,
    parts: &'e [Ere],
    rows: &Rows,
    live: &[u32],
    memo: &mut Memo<'e>,
    budget: &mut Budget,
) -> Result<Rows, AllocError>
    requires fits { FitsText site }
    requires inside { AreInside site.low site.high rows.now }
    requires memo { AllHold site memo.old }
    ensures leads { IfOk result (LeadsThrough site.entry (trees_of (map view parts.now)) live.now rows.now) }
    ensures memo { OnOk result (AllHold site.entry memo.new) }
{
    if parts.is_empty() {
        let mut same = Rows::new(site.alloc, site.low);
        same.join(rows, budget)?;
        return Ok(same);
    }
    let last = parts.len() - 1;
    let lives = lives_from(site.alloc, parts.split_at(1).1, live)?;
    let behind = live_of(lives.as_slice(), last, live);
    let mut now = reach(site, &parts[0], rows, behind, memo, budget)?;
    for index in 1..parts.len() {
        let behind = live_of(lives.as_slice(), last - index, live);
        let next = reach(site, &parts[index], &now, behind, memo, budget)?;
        budget.release(now.len());
        now = next;
    }
    Ok(now)
}

/// The same rows with only those groups that are read.
fn with_kept(
    site: Site<'_>,
    rows: &Rows,
    live: &[u32],
    budget: &mut Budget,
) -> Result<Rows, AllocError>
    ensures { IfOk result (KeepsRows site.entry live.now rows.now) }
{
    let mut found = Rows::new(site.alloc, site.low);
    for row in &rows.rows {
        let held = kept(site.alloc, row.held.as_slice(), live)?;
        found.put(held.as_slice(), row.places.as_slice(), budget)?;
    }
    Ok(found)
}

/// The rows behind a repeat, from those between its members. Where no more is read there, they are given as they are.
fn kept_behind(
    site: Site<'_>,
    all: Rows,
    between: &[u32],
    live: &[u32],
    budget: &mut Budget,
) -> Result<Rows, AllocError>
    ensures { IfOk result (KeepsRows site.entry live.now all) }
{
    if between.len() <= live.len() {
        return Ok(all);
    }
    let found = with_kept(site, &all, live, budget)?;
    budget.release(all.len());
    Ok(found)
}

/// By one of the alternatives.
#[cycle(reach)]
fn reach_by_one<'e>(
    site: Site<'_>,
    choices: &'e [Ere],
    rows: &Rows,
    live: &[u32],
    memo: &mut Memo<'e>,
    budget: &mut Budget,
) -> Result<Rows, AllocError>
    requires fits { FitsText site }
    requires inside { AreInside site.low site.high rows.now }
    requires memo { AllHold site memo.old }
    ensures leads { IfOk result (LeadsOver site.entry (alt (trees_of (map view choices.now))) live.now rows.now) }
    ensures memo { OnOk result (AllHold site.entry memo.new) }
{
    let mut all = Rows::new(site.alloc, site.low);
    for one in choices {
        let found = reach(site, one, rows, live, memo, budget)?;
        let count = found.len();
        all.absorb(found, budget)?;
        budget.release(count);
    }
    Ok(all)
}

/// By one member that isn't empty; an empty one that changes nothing may count as one.
#[cycle(reach)]
fn reach_by_further<'e>(
    site: Site<'_>,
    inner: &'e Ere,
    rows: &Rows,
    live: &[u32],
    memo: &mut Memo<'e>,
    budget: &mut Budget,
) -> Result<Rows, AllocError>
    requires fits { FitsText site }
    requires inside { AreInside site.low site.high rows.now }
    requires memo { AllHold site memo.old }
    ensures leads { IfOk result (LeadsFurther site.entry (view inner.now) live.now rows.now) }
    ensures memo { OnOk result (AllHold site.entry memo.new) }
{
    if has_byte(inner) || !sets_one(inner, live) {
        return reach(site, inner, rows, live, memo, budget);
    }
    let mut all = Rows::new(site.alloc, site.low);
    for row in &rows.rows {
        for place in &row.places {
            let mut one = Rows::new(site.alloc, site.low);
            one.put(row.held.as_slice(), &[*place], budget)?;
            let found = reach(site, inner, &one, live, memo, budget)?;
            put_beyond(*place, &found, &mut all, budget)?;
            budget.release(found.len() + 1);
        }
    }
    Ok(all)
}

/// Adds the places of rows that lie beyond one.
fn put_beyond(
    place: usize,
    rows: &Rows,
    all: &mut Rows,
    budget: &mut Budget,
) -> Result<(), AllocError>
    ensures { OnOk result (PutsBeyond place rows.now all.old all.new) }
{
    for row in &rows.rows {
        for end in &row.places {
            if *end > place {
                all.put(row.held.as_slice(), &[*end], budget)?;
            }
        }
    }
    Ok(())
}

/// Enters the places of rows that weren't gone on from by what is read, and gives those that weren't entered before. From
/// here on each place of the rows is gone on from. Where all that lives is read, no two would be one, and those places are
/// given as they are.
fn enter_fresh(
    site: Site<'_>,
    all: &mut Rows,
    read: &[u32],
    live: &[u32],
    entered: &mut Rows,
    budget: &mut Budget,
) -> Result<Rows, AllocError>
    ensures enters { IfOk result (Enters read.now (IsFresh all.old) entered.old entered.new) }
    ensures same { OnOk result (AreSame (HasState all.new) (HasState all.old)) }
    ensures done { OnOk result (AreSame (IsDone all.new) (HasState all.old)) }
{
    if read.len() >= live.len() {
        return all.fresh(budget);
    }
    for row in &all.rows {
        let places = row.places.as_slice().split_at(row.done).1;
        if !places.is_empty() {
            let held = kept(site.alloc, row.held.as_slice(), read)?;
            entered.put(held.as_slice(), places, budget)?;
        }
    }
    let found = entered.fresh(budget)?;
    all.finish();
    Ok(found)
}

/// So many members at most of a repeat, none of which is empty.
#[derive(Clone, Copy)]
struct Further<'e> {
    inner: &'e Ere,
    most: usize,
}

/// By up to so many members that aren't empty. States that tell the same of what is read are entered once.
#[cycle(reach)]
fn reach_by_members<'e>(
    site: Site<'_>,
    further: Further<'e>,
    rows: &Rows,
    live: &[u32],
    memo: &mut Memo<'e>,
    budget: &mut Budget,
) -> Result<Rows, AllocError>
    requires fits { FitsText site }
    requires inside { AreInside site.low site.high rows.now }
    requires read { HasRead (reads (view further.inner.now)) live.now live.now }
    requires memo { AllHold site memo.old }
    ensures leads { IfOk result (LeadsUpTo site.entry (view further.entry.inner.now) further.entry.most live.now
        rows.now) }
    ensures memo { OnOk result (AllHold site.entry memo.new) }
{
    let Further { inner, most } = further;
    let read = live_before(site.alloc, inner, live)?;
    let mut entered = Rows::new(site.alloc, site.low);
    let mut all = Rows::new(site.alloc, site.low);
    all.join(rows, budget)?;
    for _ in 0..most {
        let first = enter_fresh(site, &mut all, read.as_slice(), live, &mut entered, budget)?;
        if first.len() == 0 {
            budget.release(entered.len());
            return Ok(all);
        }
        let next = reach_by_further(site, inner, &first, live, memo, budget)?;
        let count = next.len();
        all.absorb(next, budget)?;
        budget.release(first.len());
        budget.release(count);
    }
    budget.release(entered.len());
    Ok(all)
}

/// How many members more than `least` a repeat may have in a window so wide. None where it can have none at all.
fn further_members(least: u32, most: Option<u32>, width: usize) -> Option<usize>
    ensures { MayHave least most width result }
{
    match most {
        None => Some(width),
        Some(most) if most < least => None,
        Some(most) => Some((most - least) as usize),
    }
}

/// A repeat of members, at least and at most so many.
#[derive(Clone, Copy)]
struct Repeat<'e> {
    inner: &'e Ere,
    least: u32,
    most: Option<u32>,
}

/// By a repeat.
#[cycle(reach)]
fn reach_by_repeat<'e>(
    site: Site<'_>,
    repeated: Repeat<'e>,
    rows: &Rows,
    live: &[u32],
    memo: &mut Memo<'e>,
    budget: &mut Budget,
) -> Result<Rows, AllocError>
    requires fits { FitsText site }
    requires inside { AreInside site.low site.high rows.now }
    requires memo { AllHold site memo.old }
    ensures leads { IfOk result (LeadsOver site.entry
        (repeat (view repeated.entry.inner.now) repeated.entry.least repeated.entry.most) live.now rows.now) }
    ensures memo { OnOk result (AllHold site.entry memo.new) }
{
    let Repeat { inner, least, most } = repeated;
    let Some(most) = further_members(least, most, site.high.saturating_sub(site.low)) else {
        return Ok(Rows::new(site.alloc, site.low));
    };
    let further = Further { inner, most };
    let between = live_between(site.alloc, inner, live)?;
    if least == 0 {
        let all = reach_by_members(site, further, rows, between.as_slice(), memo, budget)?;
        return kept_behind(site, all, between.as_slice(), live, budget);
    }
    let mut now = reach(site, inner, rows, between.as_slice(), memo, budget)?;
    for _ in 1..least {
        let next = reach(site, inner, &now, between.as_slice(), memo, budget)?;
        budget.release(now.len());
        now = next;
    }
    let all = reach_by_members(site, further, &now, between.as_slice(), memo, budget)?;
    let found = kept_behind(site, all, between.as_slice(), live, budget)?;
    budget.release(now.len());
    Ok(found)
}

/// A group with its number.
#[derive(Clone, Copy)]
struct Group<'e> {
    number: u32,
    inner: &'e Ere,
}

/// A group that is closed from a place on, and the groups that are read behind it.
#[derive(Clone, Copy)]
struct Closing<'t, 'e> {
    site: Site<'t>,
    group: Group<'e>,
    from: usize,
    live: &'t [u32],
}

/// What is known of the texts that begin where a group does, and what is held at the end that was put last.
#[derive(Drop)]
struct Ending {
    known: Known,
    list: Vec<Held>,
}

impl Ending {
    /// Nothing yet of the texts that begin at this place.
    fn new(site: Site<'_>, from: usize) -> Ending
        ensures { FitsKnown site.entry from result.known }
    {
        Ending {
            known: Known::new(site, from),
            list: Vec::new(site.alloc),
        }
    }
}

/// Adds one end of what a group holds.
fn put_end(
    closing: Closing<'_, '_>,
    held: &[Held],
    to: usize,
    ending: &mut Ending,
    found: &mut Rows,
    budget: &mut Budget,
) -> Result<(), AllocError>
    requires fits { FitsText closing.site }
    requires order { closing.from ≤ to }
    requires inside { to ≤ closing.site.high }
    requires known { FitsKnown closing.site closing.from ending.old.known }
    ensures closed { OnOk result (IsClosed closing.entry.site closing.entry.group.number closing.entry.from
        closing.entry.live.now held.now to ending.new.list.items) }
    ensures put { OnOk result (IsPut found.old ending.new.list.items (to ∷ []) found.new) }
    ensures known { OnOk result (FitsKnown closing.entry.site closing.entry.from ending.new.known) }
{
    let (site, from) = (closing.site, closing.from);
    let part = closed_over(site, from, to, &mut ending.known, budget)?;
    keep_with(
        &mut ending.list,
        held,
        closing.live,
        closing.group.number,
        part,
    )?;
    found.put(ending.list.as_slice(), &[to], budget)?;
    Ok(())
}

/// Adds the rows behind a group that begins at a place, from those behind what it holds.
fn put_closed(
    closing: Closing<'_, '_>,
    inside: &Rows,
    found: &mut Rows,
    budget: &mut Budget,
) -> Result<(), AllocError>
    requires fits { FitsText closing.site }
    ensures { OnOk result (PutsClosed closing.entry.site closing.entry.group.number closing.entry.from closing.entry.live.now
        inside.now found.old found.new) }
{
    let (site, from) = (closing.site, closing.from);
    let mut ending = Ending::new(site, from);
    for row in &inside.rows {
        for to in &row.places {
            if from <= *to && *to <= site.high {
                put_end(
                    closing,
                    row.held.as_slice(),
                    *to,
                    &mut ending,
                    found,
                    budget,
                )?;
            }
        }
    }
    Ok(())
}

/// By a group that is read, where what it holds has no reference and sets no other group that is read.
fn reach_by_free_group<'e>(
    site: Site<'_>,
    group: Group<'e>,
    rows: &Rows,
    live: &[u32],
    memo: &mut Memo<'e>,
    budget: &mut Budget,
) -> Result<Rows, AllocError>
    requires fits { FitsText site }
    requires inside { AreInside site.low site.high rows.now }
    requires free { IsFree (view group.inner.now) group.number live.now }
    requires memo { AllHold site memo.old }
    ensures leads { IfOk result (LeadsOver site.entry (tree_of group.entry) live.now rows.now) }
    ensures memo { OnOk result (AllHold site.entry memo.new) }
{
    let mut found = Rows::new(site.alloc, site.low);
    let mut ending = Ending::new(site, site.low);
    for row in &rows.rows {
        let (inner, held) = (group.inner, row.held.as_slice());
        for from in &row.places {
            let ends = memo
                .asked
                .ends(site.alloc, inner, site.text, site.window(), &[*from])?;
            budget.take(ends.len().saturating_add(site.weight()))?;
            let closing = Closing {
                site,
                group,
                from: *from,
                live,
            };
            ending.known = Known::new(site, *from);
            for to in &ends {
                if *from <= *to && *to <= site.high {
                    put_end(closing, held, *to, &mut ending, &mut found, budget)?;
                }
            }
        }
    }
    Ok(found)
}

/// Adds the rows behind a group that begins at a place, from those behind what it holds with what other groups held before.
fn put_framed(
    closing: Closing<'_, '_>,
    inside: &Rows,
    frame: Frame<'_>,
    found: &mut Rows,
    budget: &mut Budget,
) -> Result<(), AllocError>
    requires fits { FitsText closing.site }
    ensures { OnOk result (PutsFramed closing.entry frame.entry inside.now found.old found.new) }
{
    if frame.is_empty() {
        return put_closed(closing, inside, found, budget);
    }
    let all = framed(closing.site, inside, frame, budget)?;
    put_closed(closing, &all, found, budget)?;
    budget.release(all.len());
    Ok(())
}

/// What the inside of a group leads to from where the group begins, where so much is held, and these groups are read behind it.
#[cycle(reach)]
fn told_from<'e>(
    closing: Closing<'_, 'e>,
    held: &[Held],
    live: &[u32],
    memo: &mut Memo<'e>,
    budget: &mut Budget,
) -> Result<Told<'e>, AllocError>
    requires fits { FitsText closing.site }
    requires inside { IsIn closing.site.low closing.site.high closing.from }
    requires memo { AllHold closing.site memo.old }
    ensures leads { IfOk result (λ told. LeadsFrom closing.entry.site (view closing.entry.group.inner.now) live.now held.now
        closing.entry.from told.rows) }
    ensures holds { IfOk result (Holds closing.entry.site) }
    ensures memo { OnOk result (AllHold closing.entry.site memo.new) }
{
    let (site, inner, from) = (closing.site, closing.group.inner, closing.from);
    let start = Start { from, held, live };
    if let Some(told) = memo.take(inner, start) {
        return Ok(told);
    }
    let mut one = Rows::new(site.alloc, site.low);
    one.put(held, &[from], budget)?;
    let rows = reach(site, inner, &one, live, memo, budget)?;
    let told = Told::new(site.alloc, inner, start, rows)?;
    budget.release(told.rows.len() + 1);
    Ok(told)
}

/// By a group that is read, where what it holds has a reference, or sets another group that is read.
#[cycle(reach)]
fn reach_by_bound_group<'e>(
    site: Site<'_>,
    group: Group<'e>,
    rows: &Rows,
    live: &[u32],
    memo: &mut Memo<'e>,
    budget: &mut Budget,
) -> Result<Rows, AllocError>
    requires fits { FitsText site }
    requires inside { AreInside site.low site.high rows.now }
    requires memo { AllHold site memo.old }
    ensures leads { IfOk result (LeadsOver site.entry (tree_of group.entry) live.now rows.now) }
    ensures memo { OnOk result (AllHold site.entry memo.new) }
{
    let rest = without(site.alloc, live, group.number)?;
    let own = set_in(site.alloc, group.inner, rest.as_slice())?;
    let read = live_before(site.alloc, group.inner, own.as_slice())?;
    let mut found = Rows::new(site.alloc, site.low);
    for row in &rows.rows {
        let before = row.held.as_slice();
        let held = kept(site.alloc, before, read.as_slice())?;
        let frame = Frame {
            held: before,
            own: own.as_slice(),
            others: rest.as_slice(),
        };
        for from in &row.places {
            let closing = Closing {
                site,
                group,
                from: *from,
                live,
            };
            let told = told_from(closing, held.as_slice(), own.as_slice(), memo, budget)?;
            put_framed(closing, &told.rows, frame, &mut found, budget)?;
            memo.put(told)?;
        }
    }
    Ok(found)
}

/// By a group.
#[cycle(reach)]
fn reach_by_group<'e>(
    site: Site<'_>,
    group: Group<'e>,
    rows: &Rows,
    live: &[u32],
    memo: &mut Memo<'e>,
    budget: &mut Budget,
) -> Result<Rows, AllocError>
    requires fits { FitsText site }
    requires inside { AreInside site.low site.high rows.now }
    requires memo { AllHold site memo.old }
    ensures leads { IfOk result (LeadsOver site.entry (tree_of group.entry) live.now rows.now) }
    ensures memo { OnOk result (AllHold site.entry memo.new) }
{
    let Group { number, inner } = group;
    if !live.contains(&number) {
        return reach(site, inner, rows, live, memo, budget);
    }
    let others = without(site.alloc, live, number)?;
    let read = live_before(site.alloc, inner, others.as_slice())?;
    let starts = with_kept(site, rows, read.as_slice(), budget)?;
    if !refers_or_sets(inner, others.as_slice()) {
        let found = reach_by_free_group(site, group, &starts, live, memo, budget)?;
        budget.release(starts.len());
        return Ok(found);
    }
    let found = reach_by_bound_group(site, group, &starts, live, memo, budget)?;
    budget.release(starts.len());
    Ok(found)
}

/// Whether what a group holds stands at a place.
fn stands_at(site: Site<'_>, place: usize, part: Cap, fold: bool) -> bool
    requires { FitsText site }
    ensures stands { StandsAt site.entry place part fold result }
    ensures inside { IsTrue result → place + (part.to - part.from) ≤ site.entry.high }
{
    let count = part.to.saturating_sub(part.from);
    if place > site.high || count > site.high - place || part.to > site.text.len() {
        return false;
    }
    let (one, other) = (
        &site.text[place..place + count],
        &site.text[part.to - count..part.to],
    );
    if fold {
        one.eq_ignore_ascii_case(other)
    } else {
        one == other
    }
}

/// By a reference.
fn reach_by_reference(
    site: Site<'_>,
    number: u32,
    fold: bool,
    rows: &Rows,
    live: &[u32],
    budget: &mut Budget,
) -> Result<Rows, AllocError>
    requires fits { FitsText site }
    requires inside { AreInside site.low site.high rows.now }
    ensures { IfOk result (LeadsOver site.entry (back number fold) live.now rows.now) }
{
    let mut found = Rows::new(site.alloc, site.low);
    for row in &rows.rows {
        if let Some(part) = part_of(row.held.as_slice(), number) {
            let held = kept(site.alloc, row.held.as_slice(), live)?;
            for place in &row.places {
                if stands_at(site, *place, part, fold) {
                    let end = *place + part.to.saturating_sub(part.from);
                    found.put(held.as_slice(), &[end], budget)?;
                }
            }
        }
    }
    Ok(found)
}

/// By an expression that has a reference, or sets a group that is read.
#[cycle(reach)]
fn reach_by_kind<'e>(
    site: Site<'_>,
    ere: &'e Ere,
    rows: &Rows,
    live: &[u32],
    memo: &mut Memo<'e>,
    budget: &mut Budget,
) -> Result<Rows, AllocError>
    requires fits { FitsText site }
    requires inside { AreInside site.low site.high rows.now }
    requires memo { AllHold site memo.old }
    ensures leads { IfOk result (LeadsOver site.entry (view ere.now) live.now rows.now) }
    ensures memo { OnOk result (AllHold site.entry memo.new) }
{
    match ere {
        Ere::Cat(parts) => reach_through(site, parts.as_slice(), rows, live, memo, budget),
        Ere::Alt(choices) => reach_by_one(site, choices.as_slice(), rows, live, memo, budget),
        Ere::Repeat { inner, least, most } => {
            let repeated = Repeat {
                inner,
                least: *least,
                most: *most,
            };
            reach_by_repeat(site, repeated, rows, live, memo, budget)
        }
        Ere::Group { number, inner } => {
            let group = Group {
                number: *number,
                inner,
            };
            reach_by_group(site, group, rows, live, memo, budget)
        }
        Ere::Ref { number, fold } => {
            reach_by_reference(site, *number, *fold, rows, live, budget)
        }
        Ere::Empty | Ere::Plain(_) | Ere::Set(_) | Ere::LineStart | Ere::LineEnd => {
            reach_freely(site, ere, rows, live, memo, budget)
        }
    }
}

/// The rows to which the expression leads from these, where those groups are read behind it.
#[cycle(reach)]
pub(crate) fn reach<'e>(
    site: Site<'_>,
    ere: &'e Ere,
    rows: &Rows,
    live: &[u32],
    memo: &mut Memo<'e>,
    budget: &mut Budget,
) -> Result<Rows, AllocError>
    requires fits { FitsText site }
    requires inside { AreInside site.low site.high rows.now }
    requires memo { AllHold site memo.old }
    ensures leads { IfOk result (LeadsOver site.entry (view ere.now) live.now rows.now) }
    ensures memo { OnOk result (AllHold site.entry memo.new) }
{
    if rows.len() == 0 {
        return Ok(Rows::new(site.alloc, site.low));
    }
    if !refers_or_sets(ere, live) {
        return reach_freely(site, ere, rows, live, memo, budget);
    }
    reach_by_kind(site, ere, rows, live, memo, budget)
}
