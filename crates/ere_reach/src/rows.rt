//! Rows: what groups hold, with the places at which they hold it.
ghost use Rattle.std.specs.Prelude.{◌≡◌, ◌<◌, [], length, true, IfSome, IfOk, OnOk, slice_get, Some};
ghost use Rattle.ere_reach.specs.declared.row.Row.{Row};
ghost use Rattle.ere_reach.specs.Rows.{AreAllDone, AreSame, HasState, IsDone, IsFresh, IsJoined, IsPut, IsRow, KeepsDone};

use crate::budget::Budget;
use crate::held::{Held, are_same};
use crate::row::Row;
use std::alloc::{AllocError, Global};

/// How many rows are looked at one by one, and how many slots of the table for one.
const FEW: usize = 8;

/// An odd number without order.
pub(crate) const MIX: u64 = 0x9E37_79B9_7F4A_7C15;

/// Rows with a table that leads to them by what groups hold. It may forget one.
#[derive(Drop)]
pub(crate) struct Rows {
    alloc: Global,
    low: usize,
    pub(crate) rows: Vec<Row>,
    /// The index of a row and 1, or 0.
    slots: Vec<usize>,
}

/// A number that is the same for lists that are one.
pub(crate) fn hash_of(held: &[Held]) -> u64 {
    let mut hash = MIX;
    for one in held {
        hash = (hash.rotate_left(11) ^ one.number as u64).wrapping_mul(MIX);
        hash = (hash.rotate_left(11) ^ one.part.from as u64).wrapping_mul(MIX);
        hash = (hash.rotate_left(11) ^ one.part.to as u64).wrapping_mul(MIX);
    }
    (hash ^ (hash >> 29)).wrapping_mul(MIX)
}

/// The slot of a hash in a table of so many.
pub(crate) fn slot_of(hash: u64, count: usize) -> usize
    requires { 0 < count }
    ensures { result < count }
{
    ((hash >> 20) % (count as u64)) as usize
}

/// The first free slot from one on, of the next few, or that one.
fn free_slot(slots: &[usize], first: usize) -> usize
    requires { first < length slots.now }
    ensures { result < length slots.now }
{
    for more in 0..FEW {
        let slot = first.saturating_add(more);
        if slot < slots.len() && slots[slot] == 0 {
            return slot;
        }
    }
    first
}

impl Rows {
    pub(crate) fn new(alloc: Global, low: usize) -> Rows
        ensures none { result.rows.items ≡ [] }
    {
        Rows {
            alloc,
            low,
            rows: Vec::new(alloc),
            slots: Vec::new(alloc),
        }
    }

    /// How many rows there are.
    pub(crate) fn len(&self) -> usize
        ensures { result ≡ length self.now.rows.items }
    {
        self.rows.len()
    }

    /// Whether groups hold this by the row with this index.
    fn is_row(&self, index: usize, held: &[Held]) -> bool
        ensures { result ≡ true → IsRow self.now.rows.items index held.now }
    {
        index < self.rows.len() && are_same(self.rows[index].held.as_slice(), held)
    }

    /// The index of a row by which groups hold this, if one is found.
    fn index_of(&self, held: &[Held]) -> Option<usize>
        ensures { IfSome result (λ index. IsRow self.now.rows.items index held.now) }
    {
        let count = self.slots.len();
        if count == 0 {
            for index in 0..self.rows.len() {
                if self.is_row(index, held) {
                    return Some(index);
                }
            }
            return None;
        }
        let first = slot_of(hash_of(held), count);
        for more in 0..FEW {
            let slot = first.saturating_add(more);
            let number = if slot < count { self.slots[slot] } else { 0 };
            if number > 0 && self.is_row(number - 1, held) {
                return Some(number - 1);
            }
        }
        None
    }

    /// Makes the table anew, four times as large as there are rows.
    fn rebuild(&mut self) -> Result<(), AllocError>
        ensures { self.new.rows ≡ self.old.rows }
    {
        let count = self.rows.len().saturating_mul(4).max(4 * FEW);
        let mut slots = vec![in self.alloc; 0usize; count]?;
        for (index, row) in self.rows.iter().enumerate() {
            let first = slot_of(hash_of(row.held.as_slice()), count);
            let slot = free_slot(slots.as_slice(), first);
            slots[slot] = index.saturating_add(1);
        }
        self.slots = slots;
        Ok(())
    }

    /// Puts the last row into the table.
    fn note(&mut self) -> Result<(), AllocError>
        ensures { self.new.rows ≡ self.old.rows }
    {
        let count = self.rows.len();
        if count <= FEW {
            return Ok(());
        }
        if self.slots.len() < count.saturating_mul(2) {
            return self.rebuild();
        }
        let hash = hash_of(self.rows[count - 1].held.as_slice());
        let first = slot_of(hash, self.slots.len());
        let slot = free_slot(self.slots.as_slice(), first);
        self.slots[slot] = count;
        Ok(())
    }

    /// Adds a row without places, and gives its index.
    fn add(&mut self, held: &[Held], budget: &mut Budget) -> Result<usize, AllocError>
        ensures row { IfOk result (λ index. IsRow self.new.rows.items index held.now) }
        ensures same { OnOk result (AreSame (HasState self.new) (HasState self.old)) }
        ensures done { OnOk result (KeepsDone self.old self.new) }
    {
        budget.keep(1)?;
        let index = self.rows.len();
        let list = Vec::from_slice(self.alloc, held)?;
        self.rows.push(Row::new(self.alloc, self.low, list))?;
        self.note()?;
        Ok(index)
    }

    /// The index of a row by which groups hold this. Adds one without places where none is found.
    fn row_for(&mut self, held: &[Held], budget: &mut Budget) -> Result<usize, AllocError>
        ensures row { IfOk result (λ index. IsRow self.new.rows.items index held.now) }
        ensures same { OnOk result (AreSame (HasState self.new) (HasState self.old)) }
        ensures done { OnOk result (KeepsDone self.old self.new) }
    {
        match self.index_of(held) {
            Some(index) => Ok(index),
            None => self.add(held, budget),
        }
    }

    /// Adds places at which groups hold this.
    pub(crate) fn put(
        &mut self,
        held: &[Held],
        places: &[usize],
        budget: &mut Budget,
    ) -> Result<(), AllocError>
        ensures put { OnOk result (IsPut self.old held.now places.now self.new) }
        ensures done { OnOk result (KeepsDone self.old self.new) }
    {
        budget.take(places.len().saturating_add(held.len()))?;
        if places.is_empty() {
            return Ok(());
        }
        let index = self.row_for(held, budget)?;
        for place in places {
            self.rows[index].put(self.alloc, *place)?;
        }
        Ok(())
    }

    /// Adds rows.
    pub(crate) fn join(&mut self, other: &Rows, budget: &mut Budget) -> Result<(), AllocError>
        ensures join { OnOk result (IsJoined self.old other.now self.new) }
        ensures done { OnOk result (KeepsDone self.old self.new) }
    {
        for row in &other.rows {
            self.put(row.held.as_slice(), row.places.as_slice(), budget)?;
        }
        Ok(())
    }

    /// Adds a row as it is, with no place that is gone on from.
    fn push(&mut self, mut row: Row, budget: &mut Budget) -> Result<(), AllocError>
        ensures put { OnOk result (IsPut self.old row.held.items row.places.items self.new) }
        ensures done { OnOk result (KeepsDone self.old self.new) }
    {
        budget.take(row.places.len())?;
        budget.keep(1)?;
        row.restart();
        self.rows.push(row)?;
        self.note()?;
        Ok(())
    }

    /// Adds rows, which are moved where they can be.
    pub(crate) fn absorb(&mut self, other: Rows, budget: &mut Budget) -> Result<(), AllocError>
        ensures join { OnOk result (IsJoined self.old other self.new) }
        ensures done { OnOk result (KeepsDone self.old self.new) }
    {
        for row in other.rows {
            if self.index_of(row.held.as_slice()).is_some() {
                self.put(row.held.as_slice(), row.places.as_slice(), budget)?;
            } else {
                self.push(row, budget)?;
            }
        }
        Ok(())
    }

    /// From here on each place is gone on from.
    pub(crate) fn finish(&mut self)
        ensures same { AreSame (HasState self.new) (HasState self.old) }
        ensures done { AreSame (IsDone self.new) (HasState self.old) }
    {
        for index in 0..self.rows.len() {
            self.rows[index].finish();
        }
    }

    /// Gives those places that weren't gone on from. From here on they are.
    pub(crate) fn fresh(&mut self, budget: &mut Budget) -> Result<Rows, AllocError>
        ensures fresh { IfOk result (λ found. AreSame (HasState found) (IsFresh self.old)) }
        ensures same { OnOk result (AreSame (HasState self.new) (HasState self.old)) }
        ensures done { OnOk result (AreSame (IsDone self.new) (HasState self.old)) }
        ensures none { IfOk result (λ found. found.rows.items ≡ [] → AreAllDone self.old) }
    {
        let mut fresh = Rows::new(self.alloc, self.low);
        for row in &self.rows {
            let places = row.places.as_slice().split_at(row.done).1;
            fresh.put(row.held.as_slice(), places, budget)?;
        }
        self.finish();
        Ok(fresh)
    }
}
