//! Where an expression with references ends at last, and that it ends nowhere from many places.
ghost use Rattle.std.specs.Prelude.{◌≡◌, ◌≤◌, true, length, IfOk};
ghost use Rattle.std.specs.List.{All};
ghost use Rattle.ere_match.specs.Ends.{IsBound};
ghost use Rattle.ere_reach.specs.Leads.{EndsNowhere, TellsEnd};
ghost use Rattle.ere_reach.specs.Rows.{IsIn};
ghost use Rattle.ere_tree.specs.View.{view};

use ere_dive::is_between;
use ere_reach::{Budget, MAX_STEPS, ends_nowhere, greatest_end};
use ere_relaxed::by_groups;
use ere_tree::{Cap, Ere};
use std::alloc::{AllocError, Global};

/// How many steps all searches depth first may take.
const DIVE_STEPS: usize = 500_000;

/// How many steps all searches for the ends from many places at once may take.
const ALL_MANY_STEPS: usize = 9_000_000;

/// How many steps a search with the references to one group alone may take.
const GROUP_STEPS: usize = 100_000;

/// How often such searches may leave a place or places untold before they aren't made any more.
const MISSES: usize = 8;

/// From how many steps on ends are told for many places at once, and from how many places on.
const MANY_STEPS: usize = 100_000;

const MANY_PLACES: usize = 4;

/// How many steps may still be taken for ends: by rows in all, by those from many places at once, and depth first; the group whose
/// references are asked first; how often they may tell nothing; and of how many places they told.
#[derive(Drop)]
pub(crate) struct Ends {
    steps: usize,
    many: usize,
    dives: usize,
    first: usize,
    misses: usize,
    told: usize,
}

impl Ends {
    pub(crate) fn new() -> Ends {
        Ends {
            steps: MAX_STEPS,
            many: ALL_MANY_STEPS,
            dives: DIVE_STEPS,
            first: 0,
            misses: MISSES,
            told: 0,
        }
    }

    /// Whether it was much so far.
    pub(crate) fn are_many(&self) -> bool {
        self.steps < MAX_STEPS - MANY_STEPS || self.told > MANY_PLACES
    }

    /// The greatest end in a span of what begins where it does, told in up to so many steps.
    fn greatest(
        &mut self,
        alloc: Global,
        ere: &Ere,
        slice: &[u8],
        span: Cap,
        most: usize,
    ) -> Result<Option<usize>, AllocError>
        requires order { span.from ≤ span.to }
        requires inside { span.to ≤ length slice.now }
        ensures { IfOk result (TellsEnd slice.now (view ere.now) span.from span.to) }
    {
        let mut steps = Budget::new(self.steps.min(most));
        let found = greatest_end(alloc, ere, slice, span.from, span.to, &mut steps);
        self.steps = self.steps.saturating_sub(steps.taken());
        found
    }

    /// Whether what begins at one of the places ends nowhere in the span, told in up to so many steps. False tells nothing.
    fn nowhere(
        &mut self,
        alloc: Global,
        ere: &Ere,
        slice: &[u8],
        span: Cap,
        places: &[usize],
        most: usize,
    ) -> Result<bool, AllocError>
        requires places { All (IsIn span.from span.to) places.now }
        requires inside { span.to ≤ length slice.now }
        ensures { IfOk result (λ none. none ≡ true → EndsNowhere slice.now (view ere.now) places.now span.to) }
    {
        let mut steps = Budget::new(self.steps.min(most));
        let none = ends_nowhere(alloc, ere, slice, span, places, &mut steps);
        self.steps = self.steps.saturating_sub(steps.taken());
        none
    }
}

/// A place in a span behind which nothing ends that begins where the span does, by the references to one group at a time. None where
/// nothing begins there.
fn bound_at(
    alloc: Global,
    ere: &Ere,
    slice: &[u8],
    span: Cap,
    ends: &mut Ends,
) -> Result<Option<usize>, AllocError>
    requires order { span.from ≤ span.to }
    requires inside { span.to ≤ length slice.now }
    ensures { IfOk result (IsBound slice.now (view ere.now) span.from span.to) }
{
    let mut high = span.to;
    if ends.misses == 0 {
        return Ok(Some(high));
    }
    let singles = by_groups(alloc, ere)?;
    let count = singles.len();
    for turn in 0..count {
        let index = ends.first.saturating_add(turn) % count;
        let nearer = Cap {
            from: span.from,
            to: high,
        };
        match ends.greatest(alloc, &singles[index], slice, nearer, GROUP_STEPS) {
            Ok(None) => {
                ends.first = index;
                ends.told = ends.told.saturating_add(1);
                return Ok(None);
            }
            Ok(Some(end)) => high = end,
            Err(_) => {}
        }
    }
    ends.misses = ends.misses.saturating_sub(1);
    Ok(Some(high))
}

/// The greatest end in a span of what begins where it does. Mostly something matches all of it, which is found soon.
pub(crate) fn end_at(
    alloc: Global,
    ere: &Ere,
    slice: &[u8],
    span: Cap,
    ends: &mut Ends,
) -> Result<Option<usize>, AllocError>
    requires order { span.from ≤ span.to }
    requires inside { span.to ≤ length slice.now }
    ensures { IfOk result (TellsEnd slice.now (view ere.now) span.from span.to) }
{
    if let Ok(true) = is_between(alloc, ere, slice, span, &mut ends.dives) {
        return Ok(Some(span.to));
    }
    let Some(high) = bound_at(alloc, ere, slice, span, ends)? else {
        return Ok(None);
    };
    let nearer = Cap {
        from: span.from,
        to: high,
    };
    if high < span.to {
        if let Ok(true) = is_between(alloc, ere, slice, nearer, &mut ends.dives) {
            return Ok(Some(high));
        }
    }
    ends.greatest(alloc, ere, slice, nearer, usize::MAX)
}

/// Whether what begins at one of the places ends nowhere in the span, by the references to one group at a time, and else by all.
/// False tells nothing.
pub(crate) fn end_nowhere(
    alloc: Global,
    ere: &Ere,
    slice: &[u8],
    span: Cap,
    places: &[usize],
    ends: &mut Ends,
) -> Result<bool, AllocError>
    requires places { All (IsIn span.from span.to) places.now }
    requires inside { span.to ≤ length slice.now }
    ensures { IfOk result (λ none. none ≡ true → EndsNowhere slice.now (view ere.now) places.now span.to) }
{
    if ends.misses > 0 {
        let singles = by_groups(alloc, ere)?;
        let count = singles.len();
        for turn in 0..count {
            let index = ends.first.saturating_add(turn) % count;
            if let Ok(true) = ends.nowhere(
                alloc,
                &singles[index],
                slice,
                span,
                places,
                GROUP_STEPS,
            ) {
                ends.first = index;
                return Ok(true);
            }
        }
        ends.misses = ends.misses.saturating_sub(1);
    }
    let (given, most) = (ends.steps, ends.many);
    let none = ends.nowhere(alloc, ere, slice, span, places, most);
    let taken = given.saturating_sub(ends.steps);
    ends.many = ends.many.saturating_sub(taken);
    none
}
