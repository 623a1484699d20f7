//! Sets of small numbers that are emptied at once.
ghost use Rattle.std.specs.Prelude.{◌≡◌, ◌+◌, ◌<◌, ◌≤◌, false, true, not, length, replicate, IfOk, slice_set, slice_index_or};
ghost use Rattle.std.specs.Bool.{MatchBool};
ghost use Rattle.ere_auto.specs.Marks.{members};

use std::alloc::{AllocError, Global};
use std::marker::Model;

/// A set of numbers below a bound: a number is in it if it carries the stamp that is in use.
#[derive(Drop)]
pub struct Marks {
    stamps: Vec<u32>,
    stamp: u32,
}

/// For each number whether it is in the set.
impl Model for Marks {
    ghost use Rattle.std.specs.Prelude.{Bool, List, map, ◌==◌, ◌≤◌, All};

    ghost Value = { List Bool };

    ghost view = { λ m. map (λ s. s == m.stamp) m.stamps.items };

    ghost invariant = { λ m. All (λ s. s ≤ m.stamp) m.stamps.items };
}

impl Marks {
    pub fn new(alloc: Global, bound: usize) -> Result<Marks, AllocError>
        ensures { IfOk result (λ m. m ≡ replicate bound false) }
    {
        let stamps = vec![in alloc; 0u32; bound]?;
        Ok(Marks { stamps, stamp: 1 })
    }

    pub fn clear(&mut self)
        ensures { self.new ≡ replicate (length self.old) false }
    {
        if self.stamp == u32::MAX {
            self.stamps.fill(0);
            self.stamp = 0;
        }
        self.stamp += 1;
    }

    pub fn has(&self, number: usize) -> bool
        requires { number < length self.now }
        ensures { result ≡ slice_index_or self.now number false }
    {
        self.stamps[number] == self.stamp
    }

    /// Adds a number, and tells whether it is new.
    pub fn insert(&mut self, number: usize) -> bool
        requires { number < length self.old }
        ensures new { result ≡ not (slice_index_or self.old number false) }
        ensures after { self.new ≡ slice_set self.old number true }
        ensures counted { MatchBool result (members self.new ≡ members self.old + 1)
            (self.new ≡ self.old) }
        ensures within { members self.new ≤ length self.old }
        ensures len { length self.new ≡ length self.old }
    {
        let new = self.stamps[number] != self.stamp;
        self.stamps[number] = self.stamp;
        new
    }
}
