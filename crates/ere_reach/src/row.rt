//! What groups hold at some places.
ghost use Rattle.std.specs.Prelude.{◌≡◌, ◌↔◌, ◌⊎◌, ℕ, ◌≤◌, [], length, take, nat_eq, IsTrue, OnOk};
ghost use Rattle.std.specs.List.{Contains, list_any};
ghost use Rattle.ere_places.specs.Seen.{is_held};
ghost use Rattle.ere_places.specs.declared.window.Direction.TheVariants.{Ahead};

use crate::held::Held;
use ere_places::{Direction, Seen};
use std::alloc::{AllocError, Global};

/// So many of the first places of a row are looked at one by one; the others are in a set.
const FEW: usize = 8;

/// What groups hold at some places, in the order in which the places came. Those before `done` are gone on from.
#[derive(Drop)]
pub(crate) struct Row {
    pub(crate) held: Vec<Held>,
    pub(crate) places: Vec<usize>,
    pub(crate) done: usize,
    seen: Seen,
    low: usize,
    ghost ahead: { seen.direction ≡ Ahead },
    ghost based: { seen.base ≡ low },
    ghost told: { (q : ℕ) → IsTrue (is_held seen q) → IsTrue (list_any (nat_eq q) places.items) },
    ghost gone: { done ≤ length places.items },
}

impl Row {
    ghost use Rattle.ere_reach.specs.Refers.{HasMore, IsFront};

    pub(crate) fn new(alloc: Global, low: usize, held: Vec<Held>) -> Row
        ensures held { result.held.items ≡ held.items }
        ensures places { result.places.items ≡ [] }
        ensures done { result.done ≡ 0 }
    {
        Row {
            held,
            places: Vec::new(alloc),
            done: 0,
            seen: Seen::new(alloc, Direction::Ahead, low),
            low,
        }
    }

    /// Whether the place is there, as far as is known.
    fn has(&self, place: usize) -> bool
        ensures { IsTrue result → Contains self.now.places.items place }
    {
        let few = self.places.len().min(FEW);
        self.seen.has(place) || self.places.as_slice().split_at(few).0.contains(&place)
    }

    /// Adds a place, if it isn't there.
    pub(crate) fn put(&mut self, alloc: Global, place: usize) -> Result<(), AllocError>
        ensures there { OnOk result (HasMore (λ q. q ≡ place) self.old.places.items self.new.places.items) }
        ensures behind { OnOk result (IsFront self.old.places.items self.new.places.items) }
        ensures held { self.new.held ≡ self.old.held }
        ensures done { self.new.done ≡ self.old.done }
    {
        if self.has(place) {
            return Ok(());
        }
        let many = self.places.len() >= FEW;
        self.places.push(place)?;
        if many && place >= self.low && self.seen.put(place).is_err() {
            self.seen = Seen::new(alloc, Direction::Ahead, self.low);
            return Err(AllocError);
        }
        Ok(())
    }

    /// From here on each of its places is gone on from.
    pub(crate) fn finish(&mut self)
        ensures places { self.new.places ≡ self.old.places }
        ensures held { self.new.held ≡ self.old.held }
        ensures done { self.new.done ≡ length self.old.places.items }
    {
        self.done = self.places.len();
    }
    /// From here on none of its places is gone on from.
    pub(crate) fn restart(&mut self)
        ensures places { self.new.places ≡ self.old.places }
        ensures held { self.new.held ≡ self.old.held }
        ensures done { self.new.done ≡ 0 }
    {
        self.done = 0;
    }
}
