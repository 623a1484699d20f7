//! Where a part can end.
ghost use Rattle.std.specs.List.{Contains};
ghost use Rattle.std.specs.Prelude.{◌≡◌, ◌↔◌, ℕ, ◌+◌, ◌<◌, ◌≤◌, ◌^◌, true, false, IsTrue, length, IfOk};
ghost use Rattle.ere_places.specs.Seen.{is_held};
ghost use Rattle.ere_refs.specs.Over.{AreEndsOf, AreSpanned, IsLast, is_known, may_be};
ghost use Rattle.ere_refs.specs.Refers.{refs_fit};
ghost use Rattle.ere_tree.specs.Derivation.{Spans};
ghost use Rattle.ere_tree.specs.Shape.{has_refs};
ghost use Rattle.ere_tree.specs.View.{view};

use crate::held::{Part, text_held};
use ere_auto::ends_from;
use ere_places::{Direction, Seen, Window};
use ere_tree::{Cap, Ere};
use std::alloc::{AllocError, Global};

/// The ends that a part can have.
#[derive(Drop)]
pub(crate) enum Ends {
    /// Exactly these, and none of them lies beyond that place.
    Held(Seen, usize),
    /// This one alone.
    Only(usize),
    /// Nothing is known of them.
    Any,
}

impl Ends {
    /// Whether the part can end there.
    pub(crate) fn may_be(&self, end: usize) -> bool
        ensures { result ≡ may_be self.now end }
    {
        match self {
            Ends::Held(seen, _) => seen.has(end),
            Ends::Only(only) => *only == end,
            Ends::Any => true,
        }
    }

    /// Whether these are exactly the ends.
    pub(crate) fn is_known(&self) -> bool
        ensures { result ≡ is_known self.now }
    {
        match self {
            Ends::Held(_, _) => true,
            Ends::Only(_) | Ends::Any => false,
        }
    }

    /// The least place from one to another where the part can end, and the one behind the greatest, as far as these are told at
    /// once.
    pub(crate) fn between(&self, from: usize, to: usize) -> (usize, usize)
        requires order { from ≤ to }
        requires fits { to + 1 < 2 ^ 64 }
        requires last { IsLast self.now }
        ensures low { from ≤ result.0 }
        ensures order { result.0 ≤ result.1 }
        ensures high { result.1 ≤ to + 1 }
        ensures holds { (q : ℕ) → from ≤ q → q ≤ to → may_be self.now q ≡ true → (result.0 ≤ q) × (q < result.1) }
    {
        match self {
            Ends::Any => (from, to + 1),
            Ends::Held(_, last) => (from, to.min(*last).max(from) + 1),
            Ends::Only(only) => {
                if *only < from || *only > to {
                    (from, from)
                } else {
                    (*only, *only + 1)
                }
            }
        }
    }
}

/// The greatest of some places, or this one where it is greater.
fn last_of(places: &[usize], from: usize) -> usize
    ensures { (q : ℕ) → Contains places.now q → q ≤ result }
{
    let mut last = from;
    for place in places {
        last = last.max(*place);
    }
    last
}

/// The places that an expression without references leads to.
#[derive(Drop)]
pub(crate) struct Reached {
    pub(crate) seen: Seen,
    /// None of them lies beyond it.
    last: usize,
}

/// The ends of an expression without references from a place, up to another.
pub(crate) fn ends_between(
    alloc: Global,
    ere: &Ere,
    text: &[u8],
    from: usize,
    to: usize,
) -> Result<Reached, AllocError>
    requires no_refs { has_refs (view ere.now) ≡ false }
    requires order { from ≤ to }
    requires within { to ≤ length text.now }
    ensures are { IfOk result (λ ends. AreSpanned text.now (view ere.now) from to ends.seen) }
    ensures last { IfOk result (λ ends. (q : ℕ) → IsTrue (is_held ends.seen q) → q ≤ ends.last) }
{
    let window = Window {
        low: from,
        high: to,
        direction: Direction::Ahead,
    };
    let ends = ends_from(alloc, ere, text, window, &[from])?;
    let places = ends.as_slice();
    let last = last_of(places, from);
    let seen = Seen::of(alloc, Direction::Ahead, from, places)?;
    Ok(Reached { seen, last })
}

/// The ends that an expression can have in a part, as far as they are told at once.
pub(crate) fn ends_of(
    alloc: Global,
    ere: &Ere,
    text: &[u8],
    part: Part,
    caps: &[Option<Cap>],
) -> Result<Ends, AllocError>
    requires refs { refs_fit (length caps.now) (view ere.now) ≡ true }
    requires order { part.from ≤ part.to }
    requires within { part.to ≤ length text.now }
    requires fits { part.start + length text.now < 2 ^ 64 }
    ensures are { IfOk result (AreEndsOf text.now (view ere.now) part caps.now) }
    ensures last { IfOk result IsLast }
{
    if !ere.has_refs() {
        let Reached { seen, last } = ends_between(alloc, ere, text, part.from, part.to)?;
        return Ok(Ends::Held(seen, last));
    }
    match ere {
        Ere::Ref { number, .. } => match text_held(text, part.start, caps, *number) {
            Some(held) => Ok(Ends::Only(part.from.saturating_add(held.len()))),
            None => Ok(Ends::Only(part.from)),
        },
        Ere::Cat(_) | Ere::Alt(_) | Ere::Group { .. } | Ere::Repeat { .. } => Ok(Ends::Any),
        Ere::Empty | Ere::Plain(_) | Ere::Set(_) => Ok(Ends::Any),
        Ere::LineStart | Ere::LineEnd => Ok(Ends::Any),
    }
}
