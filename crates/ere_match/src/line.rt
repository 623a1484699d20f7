//! At which places of a line something may begin, told at once by an expression without references.
ghost use Rattle.std.specs.Prelude.{◌≡◌, ℕ, ◌≤◌, false, length, IfOk, IsTrue};
ghost use Rattle.std.specs.List.{All, Contains};
ghost use Rattle.ere_match.specs.Line.{AreStarts, EndsBy, StaysUpTo, TellsLine};
ghost use Rattle.ere_places.specs.Places.{IsInside};
ghost use Rattle.ere_places.specs.Seen.{is_held};
ghost use Rattle.ere_tree.specs.Derivation.{Spans};
ghost use Rattle.ere_tree.specs.Shape.{has_refs};
ghost use Rattle.ere_tree.specs.View.{view};

use crate::literal::may_hold_newline;
use crate::starts::Starts;
use ere_auto::ends_from;
use ere_places::{Direction, Seen, Window, image};
use ere_tree::Ere;
use memchr::memchr;
use std::alloc::{AllocError, Global};

/// How long the rest of a line is at most of which places are told at once.
const LONGEST: usize = 65_536;

/// A place up to which all ends that begins between this one and it.
fn last_end(free: &Ere, slice: &[u8], place: usize) -> usize
    requires { place ≤ length slice.now }
    ensures { StaysUpTo slice.now (view free.now) place result }
{
    if may_hold_newline(free) {
        return slice.len();
    }
    match memchr(b'\n', &slice[place..]) {
        Some(newline) => place + newline,
        None => slice.len(),
    }
}

/// All places of a window.
fn all_places(alloc: Global, window: Window) -> Result<Vec<usize>, AllocError>
    requires { window.low ≤ window.high }
    ensures inside { IfOk result (λ all. All (IsInside window) all.items) }
    ensures each { IfOk result (λ all. (q : ℕ) → IsInside window q → Contains all.items q) }
{
    let mut all = Vec::with_capacity(alloc, window.high - window.low)?;
    for place in window.low..window.high {
        all.push(place)?;
    }
    all.push(window.high)?;
    Ok(all)
}

/// The places from one to another at which something begins that ends up to there.
fn begins_in(
    alloc: Global,
    free: &Ere,
    slice: &[u8],
    low: usize,
    high: usize,
) -> Result<Seen, AllocError>
    requires no_refs { has_refs (view free.now) ≡ false }
    requires order { low ≤ high }
    requires inside { high ≤ length slice.now }
    ensures { IfOk result (λ seen. (h k : ℕ) → low ≤ h → k ≤ high → Spans slice.now (view free.now) h k
        → IsTrue (is_held seen h)) }
{
    let window = Window {
        low,
        high,
        direction: Direction::Back,
    };
    let all = all_places(alloc, window)?;
    let begins = image(alloc, free, slice, window, all.as_slice())?;
    let seen = Seen::of(alloc, Direction::Ahead, low, begins.as_slice())?;
    Ok(seen)
}

/// The greatest end up to a place of what begins at another one.
fn last_from(
    alloc: Global,
    free: &Ere,
    slice: &[u8],
    low: usize,
    high: usize,
) -> Result<usize, AllocError>
    requires no_refs { has_refs (view free.now) ≡ false }
    requires order { low ≤ high }
    requires inside { high ≤ length slice.now }
    ensures { IfOk result (EndsBy slice.now (view free.now) low high) }
{
    let window = Window {
        low,
        high,
        direction: Direction::Ahead,
    };
    let ends = ends_from(alloc, free, slice, window, &[low])?;
    let mut last = low;
    for end in &ends {
        last = last.max(*end);
    }
    Ok(last)
}

/// What is told at once of the rest of a line: how far what begins in it may go, and at which places something may begin.
#[derive(Drop)]
pub(crate) struct Line {
    pub(crate) high: usize,
    begins: Seen,
}

impl Line {
    /// The rest of a line from a place on, by an expression that spans whatever the one that is sought spans. None where it is too
    /// long.
    pub(crate) fn of(
        alloc: Global,
        free: &Ere,
        slice: &[u8],
        low: usize,
    ) -> Result<Option<Line>, AllocError>
        requires no_refs { has_refs (view free.now) ≡ false }
        requires inside { low ≤ length slice.now }
        ensures { IfOk result (TellsLine slice.now (view free.now) low) }
    {
        let high = last_end(free, slice, low);
        if high - low > LONGEST {
            return Ok(None);
        }
        let begins = begins_in(alloc, free, slice, low, high)?;
        Ok(Some(Line { high, begins }))
    }

    /// Whether something may begin at the place.
    pub(crate) fn has(&self, place: usize) -> bool
        ensures { result ≡ is_held self.now.begins place }
    {
        self.begins.has(place)
    }

    /// How far what begins at the place may go.
    pub(crate) fn end_from(
        &self,
        alloc: Global,
        free: &Ere,
        slice: &[u8],
        place: usize,
    ) -> Result<usize, AllocError>
        requires no_refs { has_refs (view free.now) ≡ false }
        requires order { place ≤ self.now.high }
        requires inside { self.now.high ≤ length slice.now }
        ensures { IfOk result (EndsBy slice.now (view free.now) place self.now.high) }
    {
        last_from(alloc, free, slice, place, self.high)
    }

    /// A place with up to so many others behind it at which something may begin.
    pub(crate) fn starts(
        &self,
        alloc: Global,
        place: usize,
        others: usize,
    ) -> Result<Starts, AllocError>
        requires { place ≤ self.now.high }
        ensures { IfOk result (AreStarts self.now place) }
    {
        let mut starts = Starts::new(alloc, place, self.high)?;
        for before in place..self.high {
            if starts.places.len() > others {
                return Ok(starts);
            }
            if self.has(before + 1) {
                starts.put(before + 1)?;
            } else {
                starts.pass(before + 1);
            }
        }
        Ok(starts)
    }
}
