//! The states to which a state leads by its first task.
ghost use Rattle.std.specs.Prelude.{◌≡◌, ◌≤◌, length, IfOk, IfSome, IsTrue};
ghost use Rattle.ere_dive.specs.Dive.{Does, DoesTask, FitsText, IsClosed, LeadsBy, LeadsTo, LetsOneMore, OpensTo, StandsTo};
ghost use Rattle.ere_dive.specs.declared.task.What.TheVariants.{Choices, Close, Match, Parts};
ghost use Rattle.ere_places.specs.Places.{is_leaf};
ghost use Rattle.ere_tree.specs.Tree.{back, group, repeat};
ghost use Rattle.ere_tree.specs.View.{view};

use crate::sums::{mixed, sum_of};
use crate::task::{Held, State, What, part_of};
use ere_places::{Direction, Window, image};
use ere_tree::{Cap, Ere};
use std::alloc::{AllocError, Global};

/// An expression, the span of a text that it is to match, and the groups to which it refers.
#[derive(Clone, Copy)]
pub(crate) struct Site<'t, 'e> {
    pub(crate) alloc: Global,
    pub(crate) text: &'t [u8],
    pub(crate) whole: &'e Ere,
    pub(crate) low: usize,
    pub(crate) high: usize,
    pub(crate) referred: &'t [u32],
}

/// The states to which one leads. Of two the first does more.
#[derive(Drop)]
pub(crate) enum Opened<'e> {
    Nothing,
    One(State<'e>),
    Two(State<'e>, State<'e>),
}

/// By an expression with nothing inside.
fn open_leaf<'e>(
    site: Site<'_, '_>,
    state: State<'e>,
    ere: &'e Ere,
) -> Result<Opened<'e>, AllocError>
    requires fits { FitsText site }
    requires leaf { IsTrue (is_leaf (view ere.now)) }
    requires leads { LeadsBy site (Does site.text.now (view ere.now)) state }
    ensures { IfOk result (OpensTo site.entry) }
{
    let window = Window {
        low: state.place,
        high: site.high,
        direction: Direction::Ahead,
    };
    let ends = image(site.alloc, ere, site.text, window, &[state.place])?;
    match ends.first() {
        Some(end) => Ok(Opened::One(State {
            place: *end,
            ..state
        })),
        None => Ok(Opened::Nothing),
    }
}

/// Up to where the text of a part stands from a place on, if it does.
fn stands_to(site: Site<'_, '_>, place: usize, part: Cap, fold: bool) -> Option<usize>
    requires fits { FitsText site }
    requires inside { place ≤ site.high }
    ensures { IfSome result (StandsTo site.entry place part.from part.to fold) }
{
    if part.from > part.to || part.to > site.text.len() {
        return None;
    }
    let count = part.to - part.from;
    if count > site.high - place {
        return None;
    }
    let (one, other) = (
        &site.text[place..place + count],
        &site.text[part.from..part.to],
    );
    let same = if fold {
        one.eq_ignore_ascii_case(other)
    } else {
        one == other
    };
    if same { Some(place + count) } else { None }
}

/// By a reference.
fn open_reference<'e>(
    site: Site<'_, '_>,
    mut state: State<'e>,
    number: u32,
    fold: bool,
) -> Result<Opened<'e>, AllocError>
    requires fits { FitsText site }
    requires leads { LeadsBy site (Does site.text.now (back number fold)) state }
    ensures { IfOk result (OpensTo site.entry) }
{
    let Some(one) = part_of(state.held.as_slice(), number) else {
        return Ok(Opened::Nothing);
    };
    match stands_to(site, state.place, one.part, fold) {
        Some(end) => {
            state.place = end;
            Ok(Opened::One(state))
        }
        None => Ok(Opened::Nothing),
    }
}

/// What groups hold where one ends. What that one holds is left out where nothing refers to it.
fn closed(
    site: Site<'_, '_>,
    number: u32,
    part: Cap,
    held: &[Held],
) -> Result<Vec<Held>, AllocError>
    ensures { IfOk result (λ found. IsClosed number part.from part.to held.now found.items) }
{
    let mut found = Vec::with_capacity(site.alloc, held.len().saturating_add(1))?;
    for one in held {
        if one.number != number {
            found.push(*one)?;
        }
    }
    if site.referred.contains(&number) {
        let sum = match site.text.get(part.from..part.to) {
            Some(bytes) => sum_of(bytes),
            None => 0,
        };
        found.push(Held { number, part, sum })?;
    }
    Ok(found)
}

/// By the end of a group.
fn open_close<'e>(
    site: Site<'_, '_>,
    mut state: State<'e>,
    number: u32,
    from: usize,
) -> Result<Opened<'e>, AllocError>
    requires leads { LeadsBy site (DoesTask site.text.now (Close number from)) state }
    ensures { IfOk result (OpensTo site.entry) }
{
    let part = Cap {
        from,
        to: state.place,
    };
    state.held = closed(site, number, part, state.held.as_slice())?;
    Ok(Opened::One(state))
}

/// By parts one behind the other.
fn open_parts<'e>(
    site: Site<'_, '_>,
    mut state: State<'e>,
    id: u64,
    parts: &'e [Ere],
) -> Result<Opened<'e>, AllocError>
    requires fits { FitsText site }
    requires leads { LeadsBy site (DoesTask site.text.now (Parts parts)) state }
    ensures { IfOk result (OpensTo site.entry) }
{
    let Some((first, others)) = parts.split_first() else {
        return Ok(Opened::One(state));
    };
    state.push(mixed(id, 1), What::Parts(others))?;
    state.push(mixed(id, 2), What::Match(first))?;
    Ok(Opened::One(state))
}

/// By one of the alternatives.
fn open_choices<'e>(
    site: Site<'_, '_>,
    mut state: State<'e>,
    id: u64,
    choices: &'e [Ere],
) -> Result<Opened<'e>, AllocError>
    requires leads { LeadsBy site (DoesTask site.text.now (Choices choices)) state }
    ensures { IfOk result (OpensTo site.entry) }
{
    let Some((first, others)) = choices.split_first() else {
        return Ok(Opened::Nothing);
    };
    let mut other = state.copy(site.alloc)?;
    state.push(mixed(id, 3), What::Match(first))?;
    other.push(mixed(id, 4), What::Choices(others))?;
    Ok(Opened::Two(state, other))
}

/// How many members may come behind one, where so many may come. None where none may.
fn one_less(most: Option<u32>) -> Option<Option<u32>>
    ensures { IfSome result (LetsOneMore most) }
{
    match most {
        None => Some(None),
        Some(0) => None,
        Some(most) => Some(Some(most - 1)),
    }
}

/// By members of a repeat.
fn open_members<'e>(
    site: Site<'_, '_>,
    mut state: State<'e>,
    id: u64,
    inner: &'e Ere,
    least: u32,
    most: Option<u32>,
) -> Result<Opened<'e>, AllocError>
    requires fits { FitsText site }
    requires leads { LeadsBy site (Does site.text.now (repeat (view inner.now) least most)) state }
    ensures { IfOk result (OpensTo site.entry) }
{
    let Some(fewer) = one_less(most) else {
        if least > 0 {
            return Ok(Opened::Nothing);
        }
        return Ok(Opened::One(state));
    };
    let ended = state.copy(site.alloc)?;
    let place = state.place;
    let next = What::Members {
        inner,
        least: least.saturating_sub(1),
        most: fewer,
    };
    state.push(id, next)?;
    if least > 0 {
        state.push(mixed(id, 5), What::Match(inner))?;
        return Ok(Opened::One(state));
    }
    state.push(id, What::Beyond(place))?;
    state.push(mixed(id, 5), What::Match(inner))?;
    Ok(Opened::Two(state, ended))
}

/// By a group.
fn open_group<'e>(
    site: Site<'_, '_>,
    mut state: State<'e>,
    id: u64,
    number: u32,
    inner: &'e Ere,
) -> Result<Opened<'e>, AllocError>
    requires leads { LeadsBy site (Does site.text.now (group number (view inner.now))) state }
    ensures { IfOk result (OpensTo site.entry) }
{
    let from = state.place;
    state.push(id, What::Close { number, from })?;
    state.push(mixed(id, 6), What::Match(inner))?;
    Ok(Opened::One(state))
}

/// By an expression.
fn open_match<'e>(
    site: Site<'_, '_>,
    state: State<'e>,
    id: u64,
    ere: &'e Ere,
) -> Result<Opened<'e>, AllocError>
    requires fits { FitsText site }
    requires leads { LeadsBy site (DoesTask site.text.now (Match ere)) state }
    ensures { IfOk result (OpensTo site.entry) }
{
    match ere {
        Ere::Cat(parts) => open_parts(site, state, id, parts.as_slice()),
        Ere::Alt(choices) => open_choices(site, state, id, choices.as_slice()),
        Ere::Repeat { inner, least, most } => {
            open_members(site, state, id, inner, *least, *most)
        }
        Ere::Group { number, inner } => open_group(site, state, id, *number, inner),
        Ere::Ref { number, fold } => open_reference(site, state, *number, *fold),
        Ere::Empty | Ere::Plain(_) | Ere::Set(_) => open_leaf(site, state, ere),
        Ere::LineStart | Ere::LineEnd => open_leaf(site, state, ere),
    }
}

/// By its first task.
pub(crate) fn open<'e>(site: Site<'_, '_>, mut state: State<'e>) -> Result<Opened<'e>, AllocError>
    requires fits { FitsText site }
    requires leads { LeadsTo site state }
    ensures { IfOk result (OpensTo site.entry) }
{
    let Some(task) = state.tasks.pop() else {
        return Ok(Opened::Nothing);
    };
    let id = task.id;
    match task.what {
        What::Match(ere) => open_match(site, state, id, ere),
        What::Parts(parts) => open_parts(site, state, id, parts),
        What::Choices(choices) => open_choices(site, state, id, choices),
        What::Members { inner, least, most } => open_members(site, state, id, inner, least, most),
        What::Beyond(from) if state.place > from => Ok(Opened::One(state)),
        What::Beyond(_) => Ok(Opened::Nothing),
        What::Close { number, from } => open_close(site, state, number, from),
    }
}
