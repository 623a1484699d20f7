//! Expressions with references, behind an automaton that tells where a hit may lie.
ghost use Rattle.std.specs.Prelude.{◌≡◌, ℕ, ◌+◌, ◌-◌, ◌<◌, ◌≤◌, true, false, Some, length, drop, IfOk, IfSome, MatchOption};
ghost use Rattle.ere_auto.specs.State.{state_of};
ghost use Rattle.ere_match.specs.Filter.{CountsOnce, FiltersAll, FindsAsked, IsFilter, LiesBehind, MayLie, StaysFilter, TellsAskedAt, TellsFrom, TellsHitAt};
ghost use Rattle.ere_match.specs.Line.{HasLine};
ghost use Rattle.ere_match.specs.Starts.{PassesFrom, TellsTried};
ghost use Rattle.ere_match.specs.declared.filter.Asked.TheVariants.{Span};
ghost use Rattle.ere_refs.specs.Refers.{refs_fit};
ghost use Rattle.ere_relaxed.specs.Relaxed.{SpansAll};
ghost use Rattle.ere_slow.specs.Slow.{HasNoHitBefore};
ghost use Rattle.ere_tree.specs.Shape.{greatest_group, has_refs};
ghost use Rattle.ere_tree.specs.View.{view};

use crate::bytes::Bytes;
use crate::ends::{Ends, end_at, end_nowhere};
use crate::line::Line;
use crate::literal::earliest;
use crate::span::find_span;
use crate::starts::Ahead;
use ere_auto::{Auto, Steps};
use ere_refs::{MAX_TRIES, Tries, refs_fit, try_from};
use ere_relaxed::relaxed;
use ere_slow::{Limit, slow_hit_from};
use ere_tree::{Cap, Caps, Ere, Hit};
use std::alloc::{AllocError, Global};
use std::sync::ledger::Ledger;
use tt_base::NoMemory;

/// How large an expression is at most of which parts are tried, as they are by calls inside calls.
const MAX_TRIED: u64 = 5_000;

/// How many ends tries may look at, however long their span is.
const LEAST_TRIES: usize = 16;

/// How many ends the tries from each place may look at.
const OWN_TRIES: usize = 1_500;

/// How many ends all of these may look at, and how many more for each place.
const ALL_OWN_TRIES: usize = 25_000;

const MORE_OWN_TRIES: usize = 64;

/// How many bytes their spans may have, since a try goes through its span.
const OWN_BYTES: usize = 120_000;

/// How many ends all first tries may look at.
const FIRST_TRIES: usize = 1_000_000;

/// How many ends one of them may look at.
const FEW_TRIES: usize = 100_000;

/// How many bytes one of them may go through.
const FEW_BYTES: usize = 20_000_000;

/// How many ends tries may look at where groups aren't asked for, and how many bytes one of them may go through.
const SPAN_TRIES: usize = 20_000;

const SPAN_BYTES: usize = 2_000_000;

/// After how many bytes of long spans it is told of many places at once.
const MANY_BYTES: usize = 2_000_000;

/// What is asked of a hit: what its groups hold, or where it lies alone.
#[derive(Clone, Copy)]
pub(crate) enum Asked {
    Groups,
    Span,
}

/// What is tried: a span of the slice that begins at an offset of a text, and what is asked of the hit that begins there.
#[derive(Clone, Copy)]
struct Try {
    asked: Asked,
    from: usize,
    span: Cap,
}

impl Try {
    /// The same up to another end.
    fn up_to(self, to: usize) -> Try
        ensures { result ≡ record {
          asked = self.asked;
          from = self.from;
          span = record { from = self.span.from; to = to };
        } }
    {
        let span = Cap {
            from: self.span.from,
            to,
        };
        Try { span, ..self }
    }

    /// The same from another place on.
    fn at(self, place: usize) -> Try
        ensures { result ≡ record {
          asked = self.asked;
          from = self.from;
          span = record { from = place; to = self.span.to };
        } }
    {
        let span = Cap {
            from: place,
            to: self.span.to,
        };
        Try { span, ..self }
    }

    /// How long its span is, and at least a byte.
    fn width(self) -> usize
        ensures { 0 < result }
    {
        self.span.to.saturating_sub(self.span.from).max(1)
    }

    /// How many ends tries of it may look at, up to so many, where all of them go through so many bytes.
    fn tries(self, most: usize, bytes: usize) -> usize {
        most.min(bytes / self.width()).max(LEAST_TRIES)
    }

    /// How many ends the first tries of it may look at.
    fn own_tries(self) -> usize {
        self.tries(OWN_TRIES, OWN_BYTES)
    }
}

/// How much a search of an expression with references may still do: what it may try from each place on its own, what in few
/// tries, what else it may try, what it may list, how far it may go for ends, and from how many places at once; and how many bytes
/// of long spans it went through.
#[derive(Drop)]
struct Budget {
    own: Tries,
    first: Tries,
    tries: Tries,
    bytes: Bytes,
    limit: Limit,
    ends: Ends,
    ahead: Ahead,
}

impl Budget {
    fn new(alloc: Global, asked: Asked) -> Budget {
        let most = match asked {
            Asked::Groups => MAX_TRIES,
            Asked::Span => SPAN_TRIES,
        };
        Budget {
            own: Tries::new(alloc).part(ALL_OWN_TRIES),
            first: Tries::new(alloc).part(FIRST_TRIES),
            tries: Tries::new(alloc).part(most),
            bytes: Bytes::new(),
            limit: Limit::new(),
            ends: Ends::new(),
            ahead: Ahead::new(),
        }
    }

    /// Whether much was done so far.
    fn is_much(&self) -> bool {
        self.ends.are_many() || self.bytes.are_past(MANY_BYTES)
    }
}

/// What a try came to: the hit, or the last of some places at which none begins.
#[derive(Drop)]
enum Tried {
    Hit(Hit),
    Passed(usize),
}

/// The automaton of an expression in which references gave way to the expressions of their groups.
#[derive(Drop)]
struct Filter {
    automaton: Auto,
}

impl Filter {
    /// The filter by an expression without references that spans whatever the other one spans.
    fn new(alloc: Global, free: &Ere) -> Result<Filter, NoMemory>
        requires { has_refs (view free.now) ≡ false }
        ensures { IfOk result (λ made. FiltersAll (state_of made.automaton) (view free.now)) }
    {
        match Auto::build(alloc, free) {
            Ok(automaton) => Ok(Filter { automaton }),
            Err(NoMemory) => Err(NoMemory),
        }
    }

    /// Where a hit may lie that begins at the place or behind it. Each byte, and the slice's end, is shown at most once.
    fn first<L: Ledger>(&mut self, slice: &[u8], place: usize, steps: &mut Steps<L>) -> Option<Cap>
        ensures lies { TellsFrom (state_of self.old.automaton) slice.now place result }
        ensures most { CountsOnce (state_of self.old.automaton) slice.now steps.old steps.new }
        ensures counted { steps.old ≤ steps.new }
        ensures kept { StaysFilter (state_of self.old.automaton) (state_of self.new.automaton) }
    {
        self.automaton.begin_at(place);
        find_span(&mut self.automaton, slice, steps)
    }

    /// Where a hit may lie that begins behind the place.
    fn behind(&mut self, slice: &[u8], place: usize) -> Option<Cap>
        ensures lies { TellsFrom (state_of self.old.automaton) slice.now (place + 1) result }
        ensures behind { LiesBehind (state_of self.old.automaton) place result }
        ensures kept { StaysFilter (state_of self.old.automaton) (state_of self.new.automaton) }
    {
        if place >= slice.len() {
            return None;
        }
        self.automaton.span_from(slice, place + 1)
    }
}

/// Whether parts of the expression are tried. Where there are very many, derivations are listed.
fn is_tried(ere: &Ere) -> bool
    ensures { result ≡ true → refs_fit (greatest_group (view ere.now)) (view ere.now) ≡ true }
{
    ere.size() <= MAX_TRIED && refs_fit(ere, ere.groups())
}

/// The hit that begins where a span does, in the slice from `from` to the text's end, with offsets of the text. Parts are tried.
fn tried_hit(
    ere: &Ere,
    free: &Ere,
    text: &[u8],
    from: usize,
    span: Cap,
    tries: &mut Tries,
) -> Result<Option<Hit>, AllocError>
    requires refs { refs_fit (greatest_group (view ere.now)) (view ere.now) ≡ true }
    requires no_refs { has_refs (view free.now) ≡ false }
    requires spans { SpansAll (view ere.now) (view free.now) }
    requires inside { from ≤ length text.now }
    requires lies { MayLie (drop from text.now) (view ere.now) (Some span) }
    ensures { IfOk result (TellsHitAt text.now (view ere.now) from span.from) }
{
    let slice = text.split_at(from).1;
    match try_from(ere, free, slice, from, span, tries)? {
        None => Ok(None),
        Some(found) => Ok(Some(Hit {
            from: from + span.from,
            to: from + found.to,
            groups: found.groups,
        })),
    }
}

/// The same in up to so many of some tries. The bytes of long spans are counted that it went through.
fn some_tries(
    ere: &Ere,
    free: &Ere,
    text: &[u8],
    one: Try,
    most: usize,
    tries: &mut Tries,
    bytes: &mut Bytes,
) -> Result<Option<Hit>, AllocError>
    requires refs { refs_fit (greatest_group (view ere.now)) (view ere.now) ≡ true }
    requires no_refs { has_refs (view free.now) ≡ false }
    requires spans { SpansAll (view ere.now) (view free.now) }
    requires inside { one.from ≤ length text.now }
    requires lies { MayLie (drop one.from text.now) (view ere.now) (Some one.span) }
    ensures { IfOk result (TellsHitAt text.now (view ere.now) one.from one.span.from) }
{
    let width = one.width();
    let mut some = tries.part(most);
    let given = some.left();
    let found = tried_hit(ere, free, text, one.from, one.span, &mut some);
    let ends = given.saturating_sub(some.left());
    bytes.take(width, ends.saturating_add(1));
    tries.join(some);
    found
}

/// The hit that begins where a span does, in the slice from `from` to the text's end, with offsets of the text. It is tried up to
/// the greatest end alone.
fn hit_at(
    ere: &Ere,
    free: &Ere,
    text: &[u8],
    one: Try,
    budget: &mut Budget,
) -> Result<Option<Hit>, AllocError>
    requires refs { refs_fit (greatest_group (view ere.now)) (view ere.now) ≡ true }
    requires no_refs { has_refs (view free.now) ≡ false }
    requires spans { SpansAll (view ere.now) (view free.now) }
    requires inside { one.from ≤ length text.now }
    requires lies { MayLie (drop one.from text.now) (view ere.now) (Some one.span) }
    ensures { IfOk result (TellsHitAt text.now (view ere.now) one.from one.span.from) }
{
    let alloc = budget.tries.memory();
    let slice = text.split_at(one.from).1;
    match end_at(alloc, ere, slice, one.span, &mut budget.ends) {
        Ok(None) => Ok(None),
        Ok(Some(to)) => {
            let (tries, bytes) = (&mut budget.tries, &mut budget.bytes);
            some_tries(ere, free, text, one.up_to(to), usize::MAX, tries, bytes)
        }
        Err(_) => {
            let (tries, bytes) = (&mut budget.tries, &mut budget.bytes);
            some_tries(ere, free, text, one, usize::MAX, tries, bytes)
        }
    }
}

/// Where the hit lies that begins where a span does, in the slice from `from` to the text's end, with offsets of the text.
fn span_at(
    ere: &Ere,
    text: &[u8],
    from: usize,
    span: Cap,
    budget: &mut Budget,
) -> Result<Option<Hit>, AllocError>
    requires inside { from ≤ length text.now }
    requires lies { MayLie (drop from text.now) (view ere.now) (Some span) }
    ensures { IfOk result (TellsAskedAt Span text.now (view ere.now) from span.from) }
{
    let alloc = budget.tries.memory();
    let slice = text.split_at(from).1;
    match end_at(alloc, ere, slice, span, &mut budget.ends)? {
        None => Ok(None),
        Some(to) => Ok(Some(Hit {
            from: from + span.from,
            to: from + to,
            groups: Caps::new(alloc),
        })),
    }
}

/// What is asked of the hit that begins where a span does, where a few tries don't tell.
fn told_further(
    ere: &Ere,
    free: &Ere,
    text: &[u8],
    one: Try,
    budget: &mut Budget,
) -> Result<Option<Hit>, AllocError>
    requires refs { refs_fit (greatest_group (view ere.now)) (view ere.now) ≡ true }
    requires no_refs { has_refs (view free.now) ≡ false }
    requires spans { SpansAll (view ere.now) (view free.now) }
    requires inside { one.from ≤ length text.now }
    requires lies { MayLie (drop one.from text.now) (view ere.now) (Some one.span) }
    ensures { IfOk result (TellsAskedAt one.asked text.now (view ere.now) one.from one.span.from) }
{
    match one.asked {
        Asked::Groups => {
            let few = one.tries(FEW_TRIES, FEW_BYTES);
            let (first, bytes) = (&mut budget.first, &mut budget.bytes);
            if let Ok(hit) = some_tries(ere, free, text, one, few, first, bytes) {
                return Ok(hit);
            }
            hit_at(ere, free, text, one, budget)
        }
        Asked::Span => {
            if let Ok(hit) = span_at(ere, text, one.from, one.span, budget) {
                return Ok(hit);
            }
            let more = Tries::new(budget.tries.memory()).part(one.own_tries());
            budget.tries.join(more);
            let last = one.tries(SPAN_TRIES, SPAN_BYTES);
            let (tries, bytes) = (&mut budget.tries, &mut budget.bytes);
            some_tries(ere, free, text, one, last, tries, bytes)
        }
    }
}

/// What is asked of the hit that begins where a span does. A few tries tell it most often.
fn told_at(
    ere: &Ere,
    free: &Ere,
    text: &[u8],
    one: Try,
    budget: &mut Budget,
) -> Result<Option<Hit>, AllocError>
    requires no_refs { has_refs (view free.now) ≡ false }
    requires spans { SpansAll (view ere.now) (view free.now) }
    requires inside { one.from ≤ length text.now }
    requires lies { MayLie (drop one.from text.now) (view ere.now) (Some one.span) }
    ensures { IfOk result (TellsAskedAt one.asked text.now (view ere.now) one.from one.span.from) }
{
    let alloc = budget.tries.memory();
    if !is_tried(ere) {
        return slow_hit_from(alloc, ere, text, one.from, one.span.from, &mut budget.limit);
    }
    budget.own.join(Tries::new(alloc).part(MORE_OWN_TRIES));
    let (own, bytes) = (&mut budget.own, &mut budget.bytes);
    if let Ok(hit) = some_tries(ere, free, text, one, one.own_tries(), own, bytes) {
        return Ok(hit);
    }
    told_further(ere, free, text, one, budget)
}

/// The last of some places from one of a line on, of which it is told at once that no hit begins at one of them.
fn passed(
    ere: &Ere,
    slice: &[u8],
    place: usize,
    line: &Line,
    budget: &mut Budget,
) -> Result<Option<usize>, AllocError>
    requires line { HasLine slice.now (view ere.now) place line.now }
    requires before { HasNoHitBefore slice.now (view ere.now) place }
    ensures { IfOk result (PassesFrom slice.now (view ere.now) place) }
{
    let count = budget.ahead.count;
    if count == 0 {
        return Ok(None);
    }
    let alloc = budget.tries.memory();
    let starts = line.starts(alloc, place, count)?;
    let within = Cap {
        from: place,
        to: starts.high,
    };
    let places = starts.places.as_slice();
    match end_nowhere(alloc, ere, slice, within, places, &mut budget.ends) {
        Ok(true) => {
            budget.ahead.pass();
            Ok(Some(starts.last))
        }
        Ok(false) => {
            budget.ahead.turn_back();
            Ok(None)
        }
        Err(_) => {
            budget.ahead.stop();
            Ok(None)
        }
    }
}

/// What is asked of the hit that begins at a place of a line, or the last of some places from there on at which none begins.
fn try_at(
    ere: &Ere,
    free: &Ere,
    text: &[u8],
    one: Try,
    line: &Line,
    budget: &mut Budget,
) -> Result<Tried, AllocError>
    requires no_refs { has_refs (view free.now) ≡ false }
    requires spans { SpansAll (view ere.now) (view free.now) }
    requires inside { one.from ≤ length text.now }
    requires line { HasLine (drop one.from text.now) (view ere.now) one.span.from line.now }
    requires before { HasNoHitBefore (drop one.from text.now) (view ere.now) one.span.from }
    ensures { IfOk result (TellsTried one.asked text.now (view ere.now) one.from one.span.from) }
{
    let slice = text.split_at(one.from).1;
    let place = one.span.from;
    if let Some(last) = passed(ere, slice, place, line, budget)? {
        return Ok(Tried::Passed(last));
    }
    let to = line.end_from(budget.tries.memory(), free, slice, place)?;
    match told_at(ere, free, text, one.up_to(to), budget)? {
        Some(hit) => Ok(Tried::Hit(hit)),
        None => Ok(Tried::Passed(place)),
    }
}

/// What is asked of the hit that begins at a place of a line or behind it, or that none does.
fn try_line(
    ere: &Ere,
    free: &Ere,
    text: &[u8],
    one: Try,
    line: &Line,
    budget: &mut Budget,
) -> Result<Tried, AllocError>
    requires no_refs { has_refs (view free.now) ≡ false }
    requires spans { SpansAll (view ere.now) (view free.now) }
    requires inside { one.from ≤ length text.now }
    requires line { HasLine (drop one.from text.now) (view ere.now) one.span.from line.now }
    requires before { HasNoHitBefore (drop one.from text.now) (view ere.now) one.span.from }
    ensures { IfOk result (TellsTried one.asked text.now (view ere.now) one.from one.span.from) }
{
    let mut next = one.span.from;
    for place in one.span.from..line.high + 1 {
        if place >= next && line.has(place) {
            match try_at(ere, free, text, one.at(place), line, budget)? {
                Tried::Hit(hit) => return Ok(Tried::Hit(hit)),
                Tried::Passed(last) => next = last.saturating_add(1),
            }
        }
    }
    Ok(Tried::Passed(line.high))
}

/// What is asked of the hit that begins where a span does, or the last of some places from there on at which none begins. Where
/// much was done so far, it is told of all of them in the line.
fn try_once(
    ere: &Ere,
    free: &Ere,
    text: &[u8],
    one: Try,
    budget: &mut Budget,
) -> Result<Tried, AllocError>
    requires no_refs { has_refs (view free.now) ≡ false }
    requires spans { SpansAll (view ere.now) (view free.now) }
    requires inside { one.from ≤ length text.now }
    requires lies { MayLie (drop one.from text.now) (view ere.now) (Some one.span) }
    ensures { IfOk result (TellsTried one.asked text.now (view ere.now) one.from one.span.from) }
{
    if budget.is_much() {
        let slice = text.split_at(one.from).1;
        let alloc = budget.tries.memory();
        if let Some(line) = Line::of(alloc, free, slice, one.span.from)? {
            return try_line(ere, free, text, one, &line, budget);
        }
    }
    match told_at(ere, free, text, one, budget)? {
        Some(hit) => Ok(Tried::Hit(hit)),
        None => Ok(Tried::Passed(one.span.from)),
    }
}

/// The hit of an expression in the slice from `from` to the text's end, with offsets of the text. It is sought from those
/// places alone at which the filter lets one begin. What its groups hold is told where that is asked.
pub(crate) fn find_filtered<L: Ledger>(
    alloc: Global,
    ere: &Ere,
    text: &[u8],
    from: usize,
    asked: Asked,
    steps: &mut Steps<L>,
) -> Result<Option<Hit>, NoMemory>
    requires inside { from ≤ length text.now }
    ensures hit { IfOk result (FindsAsked asked text.now (view ere.now) from) }
    ensures most { steps.new ≤ steps.old + (length text.now - from) + 1 }
    ensures counted { steps.old ≤ steps.new }
{
    let slice = text.split_at(from).1;
    let begin = earliest(ere, slice);
    if begin > slice.len() {
        return Ok(None);
    }
    let Ok(free) = relaxed(alloc, ere) else {
        return Err(NoMemory);
    };
    let mut filter = Filter::new(alloc, &free)?;
    let mut budget = Budget::new(alloc, asked);
    let mut found = filter.first(slice, begin, steps);
    while let Some(span) = found {
        let one = Try { asked, from, span };
        match try_once(ere, &free, text, one, &mut budget) {
            Ok(Tried::Passed(last)) => found = filter.behind(slice, last),
            Ok(Tried::Hit(hit)) => return Ok(Some(hit)),
            Err(_) => return Err(NoMemory),
        }
    }
    Ok(None)
}
