//! Sets of places.
ghost use Rattle.std.specs.Prelude.{◌≡◌, ℕ, ◌↔◌, ◌<◌, ◌||◌, ◌==◌, not, false, IsTrue, IfOk, OnOk, vec_len, slice_index};
ghost use Rattle.std.specs.List.{Contains, All};
ghost use Rattle.ere_tree.specs.View.{has_bit};
ghost use Rattle.ere_places.specs.Seen.{is_beyond, distance};

use crate::window::Direction;
use std::alloc::{AllocError, Global};

/// A set of places that grows from a base in one direction.
#[derive(Drop)]
pub struct Seen {
    pub(crate) base: usize,
    pub(crate) direction: Direction,
    words: Vec<u64>,
}

fn is_beyond(direction: Direction, base: usize, place: usize) -> bool
    ensures { result ≡ is_beyond direction base place }
{
    match direction {
        Direction::Ahead => base <= place,
        Direction::Back => place <= base,
    }
}

fn distance(direction: Direction, base: usize, place: usize) -> usize
    ensures { result ≡ distance direction base place }
{
    match direction {
        Direction::Ahead => place.saturating_sub(base),
        Direction::Back => base.saturating_sub(place),
    }
}

/// Words of no bit up to one with this index.
fn grow(words: &mut Vec<u64>, index: usize) -> Result<(), AllocError>
    ensures long { OnOk result (index < vec_len words.new) }
    ensures same { OnOk result ((b : ℕ) → has_bit words.new.items b ≡ has_bit words.old.items b) }
{
    while words.len() <= index {
        words.push(0)?;
    }
    Ok(())
}

/// Whether the bit is set.
fn bit(words: &[u64], at: usize) -> bool
    ensures { result ≡ has_bit words.now at }
{
    match words.get(at / 64) {
        Some(word) => (*word >> (at % 64)) & 1 == 1,
        None => false,
    }
}

impl Seen {
    ghost use Rattle.ere_places.specs.Seen.{is_held};

    /// The set of no place, which grows from the base.
    pub fn new(alloc: Global, direction: Direction, base: usize) -> Seen
        ensures empty { (q : ℕ) → is_held result q ≡ false }
        ensures base { result.base ≡ base }
        ensures direction { result.direction ≡ direction }
    {
        Seen {
            base,
            direction,
            words: Vec::new(alloc),
        }
    }

    /// The set of these places. They lie from the base in the direction, or are the base.
    pub fn of(
        alloc: Global,
        direction: Direction,
        base: usize,
        places: &[usize],
    ) -> Result<Seen, AllocError>
        requires { All (λ q. IsTrue (is_beyond direction base q)) places.now }
        ensures { IfOk result (λ seen. (q : ℕ) → IsTrue (is_held seen q) ↔ Contains places.now q) }
    {
        let mut seen = Seen::new(alloc, direction, base);
        for place in places {
            seen.put(*place)?;
        }
        Ok(seen)
    }

    /// Whether the place is in the set.
    pub fn has(&self, place: usize) -> bool
        ensures { result ≡ is_held self.now place }
    {
        is_beyond(self.direction, self.base, place)
            && bit(
                self.words.as_slice(),
                distance(self.direction, self.base, place),
            )
    }

    /// Adds a place, and tells whether it is new. It lies from the base in the direction, or is the base.
    pub fn put(&mut self, place: usize) -> Result<bool, AllocError>
        requires { IsTrue (is_beyond self.old.direction self.old.base place) }
        ensures held { OnOk result ((q : ℕ) → is_held self.new q ≡ (is_held self.old q || q == place)) }
        ensures new { IfOk result (λ new. new ≡ not (is_held self.old place)) }
        ensures base { self.new.base ≡ self.old.base }
        ensures direction { self.new.direction ≡ self.old.direction }
    {
        let new = !self.has(place);
        let at = distance(self.direction, self.base, place);
        grow(&mut self.words, at / 64)?;
        self.words[at / 64] |= 1 << (at % 64);
        Ok(new)
    }
}
