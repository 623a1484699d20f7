//! Lists of what groups hold behind a part that is known: of all derivations there, the preferred first; of those that agree
//! on what is still read, the first alone.
ghost use Rattle.std.specs.Prelude.{◌≡◌, ◌+◌, ◌<◌, ◌≤◌, ◌^◌, ◌∷◌, ◌++◌, [], true, false, length, map, reverse, vec_len, IfOk, OnOk};
ghost use Rattle.std.specs.List.{All, AllZip};
ghost use Rattle.ere_refs.specs.Lists.{TellsAll, items_in};
ghost use Rattle.ere_refs.specs.Machine.{AllBelow, Begins, CourseFits, EndsFit, Finishes, FrameFits, Keeps, OpenFits, ProgressFits, PutsAll, PutsCaps, PutsNew, RowRoom, SetsGroup, StateFits, caps_at, tree_of};
ghost use Rattle.ere_refs.specs.Refers.{refs_fit};
ghost use Rattle.ere_refs.specs.Site.{EndsAt, HasRoom, IsSite, ListsAt, RefersAt, SpansSite};
ghost use Rattle.ere_refs.specs.declared.lists.Frame.TheVariants.{New, Open};
ghost use Rattle.ere_tree.specs.Shape.{greatest_group, has_refs};
ghost use Rattle.ere_tree.specs.Tree.{trees_of};
ghost use Rattle.ere_tree.specs.Tree as trees;
ghost use Rattle.ere_tree.specs.View.{view};

use crate::ends::{Ends, ends_of};
use crate::held::{Part, held_behind, is_same_text, text_held, with_group};
use crate::kept::{Kept, State};
use crate::row::{Follows, Next, Row, lives_of};
use crate::sets::tells;
use crate::site::Site;
use crate::tries::Tries;
use ere_captures::spans;
use ere_tree::{Cap, Ere};
use std::alloc::{AllocError, Global};

/// What groups hold, group 1 first.
pub(crate) type Held = Vec<Option<Cap>>;

/// A state that was opened: what follows it, where that can end, and that the ends from `low` on and below `high` are
/// still to be tried.
#[derive(Drop)]
pub(crate) struct Opened<'a, 'l> {
    state: State,
    next: Next<'a, 'l>,
    ends: Ends,
    low: usize,
    high: usize,
}

/// A state from which a row goes on.
#[derive(Drop)]
pub(crate) enum Frame<'a, 'l> {
    New(State),
    Open(Opened<'a, 'l>),
}

/// What a row is tried over.
#[derive(Clone, Copy)]
struct Course<'a, 'l, 't, 'c, 'v> {
    row: Row<'a>,
    lives: &'l [Vec<u32>],
    site: Site<'t, 'c, 'v>,
}

/// How far a course has come: the states that are still to be tried, the next one last, and those that were found and left
/// behind.
#[derive(Drop)]
struct Progress<'a, 'l> {
    frames: Vec<Frame<'a, 'l>>,
    found: Kept,
    left: Kept,
}

impl<'a, 'l> Progress<'a, 'l> {
    /// None of them.
    fn new(alloc: Global) -> Progress<'a, 'l>
        ensures frames { result.frames.items ≡ [] }
        ensures found { result.found.states.items ≡ [] }
        ensures left { result.left.states.items ≡ [] }
    {
        Progress {
            frames: Vec::new(alloc),
            found: Kept::new(alloc),
            left: Kept::new(alloc),
        }
    }
}

/// Puts the state of a row that begins on the stack.
fn start<'a, 'l>(
    site: Site<'_, '_, '_>,
    progress: &mut Progress<'a, 'l>,
    tries: &Tries,
) -> Result<(), AllocError>
    ensures begins { OnOk result (Begins site.entry progress.old.frames.items progress.new.frames.items) }
    ensures found { progress.new.found.states.items ≡ progress.old.found.states.items }
    ensures left { progress.new.left.states.items ≡ progress.old.left.states.items }
{
    let place = site.part.from;
    let caps = Vec::from_slice(tries.alloc, site.caps)?;
    progress.frames.push(Frame::New(State {
        stage: 0,
        place,
        caps,
    }))?;
    Ok(())
}

/// The list of one.
fn one_list(tries: &Tries, held: Held) -> Result<Vec<Held>, AllocError>
    ensures { IfOk result (λ found. found.items ≡ held ∷ []) }
{
    let mut found = Vec::new(tries.alloc);
    found.push(held)?;
    Ok(found)
}

/// Adds what groups hold behind a derivation, unless there is what agrees with it.
fn put_found(
    found: &mut Kept,
    caps: Held,
    live: &[u32],
    tries: &mut Tries,
) -> Result<(), AllocError>
    ensures { OnOk result (PutsCaps live.now caps.items found.old.states.items found.new.states.items) }
{
    let state = State {
        stage: 0,
        place: 0,
        caps,
    };
    if found.has(&state, live) {
        return Ok(());
    }
    tries.keep()?;
    found.put(tries.alloc, state, live)
}

/// Puts new states on the stack, the first of them on top.
fn push_all<'a, 'l>(
    frames: &mut Vec<Frame<'a, 'l>>,
    found: Vec<Held>,
    stage: usize,
    place: usize,
) -> Result<(), AllocError>
    ensures { OnOk result (PutsNew stage place found.items frames.old.items frames.new.items) }
{
    let mut found = found;
    for _ in 0..found.len() {
        if let Some(caps) = found.pop() {
            frames.push(Frame::New(State { stage, place, caps }))?;
        }
    }
    Ok(())
}

/// Finds that a state is an end, drops it where nothing follows it or one like it was left behind, or tells its ends.
fn open<'a, 'l>(
    course: Course<'a, 'l, '_, '_, '_>,
    state: State,
    progress: &mut Progress<'a, 'l>,
    tries: &mut Tries,
) -> Result<(), AllocError>
    requires course { CourseFits course }
    requires state { StateFits course.site.part (length course.site.caps.now) state }
    requires progress { ProgressFits course progress.old }
    ensures fits { OnOk result (ProgressFits course.entry progress.new) }
    ensures keeps { OnOk result (Keeps course.entry progress.old (New state) progress.new) }
{
    let Course { row, lives, site } = course;
    let next = match row.follows(lives, state.stage, state.place == site.part.to) {
        Follows::End => return put_found(&mut progress.found, state.caps, site.live, tries),
        Follows::Nothing => return Ok(()),
        Follows::One(next) => next,
    };
    if progress.left.has(&state, next.before) {
        return Ok(());
    }
    let opened = opened_of(site.text, site.part, state, next, tries)?;
    progress.frames.push(Frame::Open(opened))?;
    Ok(())
}

/// A state with the ends of what follows it.
fn opened_of<'a, 'l>(
    text: &[u8],
    part: Part,
    state: State,
    next: Next<'a, 'l>,
    tries: &Tries,
) -> Result<Opened<'a, 'l>, AllocError>
    requires state { StateFits part (length state.caps.items) state }
    requires within { part.to ≤ length text.now }
    requires fits { part.start + length text.now < 2 ^ 64 }
    requires refs { refs_fit (length state.caps.items) (view next.ere.now) ≡ true }
    ensures same { IfOk result (λ one. (one.state ≡ state) × (one.next ≡ next.entry)) }
    ensures ends { IfOk result (EndsFit text.now part (length state.caps.items)) }
    ensures below { IfOk result (AllBelow part) }
{
    let from = state.place;
    let behind = Part { from, ..part };
    let ends = ends_of(tries.alloc, next.ere, text, behind, state.caps.as_slice())?;
    let (low, high) = ends.between(from, part.to);
    let low = if next.further { low.max(from + 1) } else { low };
    Ok(Opened {
        state,
        next,
        ends,
        low,
        high,
    })
}

/// Tries the greatest end of an opened state that is left, or leaves the state behind where all were tried.
#[cycle(lists)]
fn advance<'a, 'l>(
    course: Course<'a, 'l, '_, '_, '_>,
    opened: Opened<'a, 'l>,
    progress: &mut Progress<'a, 'l>,
    tries: &mut Tries,
) -> Result<(), AllocError>
    requires course { CourseFits course }
    requires opened { OpenFits course opened }
    requires progress { ProgressFits course progress.old }
    ensures fits { OnOk result (ProgressFits course.entry progress.new) }
    ensures keeps { OnOk result (Keeps course.entry progress.old (Open opened.entry) progress.new) }
{
    if opened.low >= opened.high {
        tries.keep()?;
        return progress
            .left
            .put(tries.alloc, opened.state, opened.next.before);
    }
    let to = opened.high - 1;
    let stage = opened.next.stage;
    let site = Site {
        text: course.site.text,
        part: Part {
            from: opened.state.place,
            to,
            ..course.site.part
        },
        caps: opened.state.caps.as_slice(),
        live: opened.next.behind,
    };
    let found = over_end(opened.next.ere, &opened.ends, site, tries)?;
    progress
        .frames
        .push(Frame::Open(Opened { high: to, ..opened }))?;
    push_all(&mut progress.frames, found, stage, to)
}

/// The lists behind what follows a state, up to an end.
#[cycle(lists)]
fn over_end(
    ere: &Ere,
    ends: &Ends,
    site: Site<'_, '_, '_>,
    tries: &mut Tries,
) -> Result<Vec<Held>, AllocError>
    requires room { HasRoom (length site.caps.now) (view ere.now) }
    requires site { IsSite site }
    requires ends { EndsAt site (view ere.now) ends.now }
    ensures { IfOk result (ListsAt site.entry (view ere.now)) }
{
    tries.take(1)?;
    if !ends.may_be(site.part.to) {
        return Ok(Vec::new(tries.alloc));
    }
    over(ere, ends.is_known(), site, tries)
}

/// Goes on from a frame.
#[cycle(lists)]
fn step<'a, 'l>(
    course: Course<'a, 'l, '_, '_, '_>,
    frame: Frame<'a, 'l>,
    progress: &mut Progress<'a, 'l>,
    tries: &mut Tries,
) -> Result<(), AllocError>
    requires course { CourseFits course }
    requires frame { FrameFits course frame }
    requires progress { ProgressFits course progress.old }
    ensures fits { OnOk result (ProgressFits course.entry progress.new) }
    ensures keeps { OnOk result (Keeps course.entry progress.old frame.entry progress.new) }
{
    match frame {
        Frame::New(state) => open(course, state, progress, tries),
        Frame::Open(opened) => advance(course, opened, progress, tries),
    }
}

/// Tries all that stands on the stack, or up to the first that is found where nothing is read behind it.
#[cycle(lists)]
fn run<'a, 'l>(
    course: Course<'a, 'l, '_, '_, '_>,
    progress: &mut Progress<'a, 'l>,
    tries: &mut Tries,
) -> Result<(), AllocError>
    requires course { CourseFits course }
    requires progress { ProgressFits course progress.old }
    ensures { OnOk result (Finishes course.entry progress.old progress.new) }
{
    for _ in 0..usize::MAX {
        if course.site.live.is_empty() && progress.found.len() > 0 {
            return Ok(());
        }
        match progress.frames.pop() {
            None => return Ok(()),
            Some(frame) => step(course, frame, progress, tries)?,
        }
    }
    Err(AllocError)
}

/// What was found.
fn finish(progress: Progress<'_, '_>, tries: &mut Tries) -> Result<Vec<Held>, AllocError>
    ensures { IfOk result (λ found. items_in found ≡ map caps_at progress.entry.found.states.items) }
{
    tries.release(progress.found.len().saturating_add(progress.left.len()));
    progress.found.into_caps(tries.alloc)
}

/// The lists of what groups hold behind the derivations of a row.
#[cycle(lists)]
fn over_row(
    row: Row<'_>,
    site: Site<'_, '_, '_>,
    tries: &mut Tries,
) -> Result<Vec<Held>, AllocError>
    requires room { RowRoom (length site.caps.now) row }
    requires site { IsSite site }
    ensures { IfOk result (ListsAt site.entry (tree_of row.entry)) }
{
    let lives = lives_of(tries.alloc, row, site.live)?;
    let mut progress = Progress::new(tries.alloc);
    start(site, &mut progress, tries)?;
    let course = Course {
        row,
        lives: lives.as_slice(),
        site,
    };
    run(course, &mut progress, tries)?;
    finish(progress, tries)
}

/// The lists of parts one behind the other. A single part ends where they do, so that no other end of it is tried.
#[cycle(lists)]
fn over_parts(
    parts: &[Ere],
    site: Site<'_, '_, '_>,
    tries: &mut Tries,
) -> Result<Vec<Held>, AllocError>
    requires room { HasRoom (length site.caps.now) (trees.cat (trees_of (map view parts.now))) }
    requires site { IsSite site }
    ensures { IfOk result (ListsAt site.entry (trees.cat (trees_of (map view parts.now)))) }
{
    if let Some((one, others)) = parts.split_first() {
        if others.is_empty() {
            return over(one, false, site, tries);
        }
    }
    over_row(Row::Parts(parts), site, tries)
}

/// Puts lists behind others, each unless there is what agrees with it.
fn put_all(
    found: &mut Kept,
    lists: Vec<Held>,
    live: &[u32],
    tries: &mut Tries,
) -> Result<(), AllocError>
    ensures { OnOk result (PutsAll live.now (items_in lists) found.old.states.items found.new.states.items) }
{
    for caps in lists {
        put_found(found, caps, live, tries)?;
    }
    Ok(())
}

/// The lists of the alternatives, of which an earlier one is preferred.
#[cycle(lists)]
fn over_one(
    choices: &[Ere],
    site: Site<'_, '_, '_>,
    tries: &mut Tries,
) -> Result<Vec<Held>, AllocError>
    requires room { HasRoom (length site.caps.now) (trees.alt (trees_of (map view choices.now))) }
    requires site { IsSite site }
    ensures { IfOk result (ListsAt site.entry (trees.alt (trees_of (map view choices.now)))) }
{
    let mut found = Kept::new(tries.alloc);
    for one in choices {
        let lists = over(one, false, site, tries)?;
        put_all(&mut found, lists, site.live, tries)?;
        if site.live.is_empty() && found.len() > 0 {
            tries.release(found.len());
            return found.into_caps(tries.alloc);
        }
    }
    tries.release(found.len());
    found.into_caps(tries.alloc)
}

/// The lists with one group set.
fn set_all(
    found: Vec<Held>,
    number: u32,
    part: Part,
    tries: &Tries,
) -> Result<Vec<Held>, AllocError>
    requires number { All (λ held. number ≤ vec_len held) found.items }
    requires from { part.start + part.from < 2 ^ 64 }
    requires to { part.start + part.to < 2 ^ 64 }
    ensures { IfOk result (λ set. AllZip (SetsGroup part number) found.items set.items) }
{
    let mut set = Vec::new(tries.alloc);
    for held in found {
        set.push(with_group(held, number, part))?;
    }
    Ok(set)
}

/// Whether the part is what the group of a number holds.
fn refers(site: Site<'_, '_, '_>, number: u32, fold: bool) -> bool
    requires some { 0 < number }
    requires room { number ≤ length site.caps.now }
    requires site { IsSite site }
    ensures { RefersAt site.entry number fold result }
{
    let Site { text, part, .. } = site;
    match text_held(text, part.start, site.caps, number) {
        Some(held) => is_same_text(fold, &text[part.from..part.to], held),
        None => false,
    }
}

/// The list of a reference.
fn over_ref(
    number: u32,
    fold: bool,
    site: Site<'_, '_, '_>,
    tries: &Tries,
) -> Result<Vec<Held>, AllocError>
    requires some { 0 < number }
    requires number { number ≤ length site.caps.now }
    requires site { IsSite site }
    ensures { IfOk result (ListsAt site.entry (trees.back number fold)) }
{
    if !refers(site, number, fold) {
        return Ok(Vec::new(tries.alloc));
    }
    one_list(tries, Vec::from_slice(tries.alloc, site.caps)?)
}

/// The list of an expression without references, whose span tells what is read behind it. It may be known that it spans the
/// part.
fn over_free(
    ere: &Ere,
    known: bool,
    site: Site<'_, '_, '_>,
    tries: &Tries,
) -> Result<Vec<Held>, AllocError>
    requires no_refs { has_refs (view ere.now) ≡ false }
    requires tells { TellsAll (view ere.now) site.live.now }
    requires known { known ≡ true → SpansSite site (view ere.now) }
    requires room { greatest_group (view ere.now) ≤ length site.caps.now }
    requires site { IsSite site }
    ensures { IfOk result (ListsAt site.entry (view ere.now)) }
{
    let Site {
        text,
        part,
        caps,
        ..
    } = site;
    if !known && !spans(tries.alloc, ere, text, part.from, part.to)? {
        return Ok(Vec::new(tries.alloc));
    }
    let held = held_behind(tries.alloc, ere, text, part, caps)?;
    one_list(tries, held)
}

/// The lists of what groups hold behind the derivations of the expression. It may be known that it spans the part.
#[cycle(lists)]
pub(crate) fn over(
    ere: &Ere,
    known: bool,
    site: Site<'_, '_, '_>,
    tries: &mut Tries,
) -> Result<Vec<Held>, AllocError>
    requires known { known ≡ true → SpansSite site (view ere.now) }
    requires room { HasRoom (length site.caps.now) (view ere.now) }
    requires site { IsSite site }
    ensures { IfOk result (ListsAt site.entry (view ere.now)) }
{
    if !ere.has_refs() && tells(ere, site.live) {
        return over_free(ere, known, site, tries);
    }
    match ere {
        Ere::Cat(parts) => over_parts(parts.as_slice(), site, tries),
        Ere::Repeat { inner, least, most } => {
            over_row(Row::Members(inner, *least, *most), site, tries)
        }
        Ere::Alt(choices) => over_one(choices.as_slice(), site, tries),
        Ere::Group { number, inner } => {
            let found = over(inner, false, site, tries)?;
            set_all(found, *number, site.part, tries)
        }
        Ere::Ref { number, fold } => over_ref(*number, *fold, site, tries),
        Ere::Empty | Ere::Plain(_) | Ere::Set(_) => over_free(ere, known, site, tries),
        Ere::LineStart | Ere::LineEnd => over_free(ere, known, site, tries),
    }
}
