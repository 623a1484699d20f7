//! What the insides of groups lead to, so that each is gone through once from a place with what is read in it.
ghost use Rattle.std.specs.Prelude.{◌≡◌, ◌<◌, [], true, IfOk, IfSome, OnOk, Some};
ghost use Rattle.std.specs.List.{Contains};
ghost use Rattle.ere_reach.specs.Memo.{HasOld, HasOldOr, IsOf};
ghost use Rattle.ere_tree.specs.View.{view};

use crate::asked::AskedEnds;
use crate::held::{Held, are_same};
use crate::rows::{MIX, Rows, hash_of, slot_of};
use crate::same::are_one;
use ere_tree::Ere;
use std::alloc::{AllocError, Global};

/// How much what is kept may weigh: its places, where a row counts as some.
const MOST_WEIGHT: usize = 2_000_000;

/// As how many places a row counts.
const ROW_WEIGHT: usize = 16;

/// How many slots there are at first.
const FIRST_SLOTS: usize = 64;

/// A place from which the inside of a group is gone through, with what is read in it. Live are the groups in it that are read
/// behind it.
#[derive(Clone, Copy)]
pub(crate) struct Start<'s> {
    pub(crate) from: usize,
    pub(crate) held: &'s [Held],
    pub(crate) live: &'s [u32],
}

/// The rows to which it leads from there.
#[derive(Drop)]
pub(crate) struct Told<'e> {
    inner: &'e Ere,
    from: usize,
    held: Vec<Held>,
    live: Vec<u32>,
    pub(crate) rows: Rows,
    weight: usize,
}

impl<'e> Told<'e> {
    pub(crate) fn new(
        alloc: Global,
        inner: &'e Ere,
        start: Start<'_>,
        rows: Rows,
    ) -> Result<Told<'e>, AllocError>
        ensures of { IfOk result (IsOf (view inner.now) start.entry) }
        ensures rows { IfOk result (λ told. told.rows ≡ rows) }
    {
        let mut weight = ROW_WEIGHT;
        for row in &rows.rows {
            let more = row.places.len().saturating_add(ROW_WEIGHT);
            weight = weight.saturating_add(more);
        }
        Ok(Told {
            inner,
            from: start.from,
            held: Vec::from_slice(alloc, start.held)?,
            live: Vec::from_slice(alloc, start.live)?,
            rows,
            weight,
        })
    }

    /// Whether it was told of this start.
    fn is_of(&self, inner: &Ere, start: Start<'_>) -> bool
        ensures { result ≡ true → IsOf (view inner.now) start.entry self.now }
    {
        self.from == start.from
            && are_same(self.held.as_slice(), start.held)
            && self.live.as_slice() == start.live
            && are_one(self.inner, inner)
    }
}

/// A table of what was told, which may forget, and where expressions without references end, of which it was asked.
#[derive(Drop)]
pub(crate) struct Memo<'e> {
    alloc: Global,
    pub(crate) asked: AskedEnds<'e>,
    slots: Vec<Option<Told<'e>>>,
    used: usize,
    weight: usize,
}

/// The slot of what is told from a place with what groups hold, in a table of so many.
fn slot_for(from: usize, held: &[Held], live: &[u32], count: usize) -> usize
    requires { 0 < count }
    ensures { result < count }
{
    let mut hash = hash_of(held).rotate_left(11) ^ from as u64;
    for number in live {
        hash = hash.rotate_left(7) ^ *number as u64;
    }
    slot_of((hash ^ (hash >> 29)).wrapping_mul(MIX), count)
}

impl<'e> Memo<'e> {
    pub(crate) fn new(alloc: Global) -> Memo<'e>
        ensures slots { result.slots.items ≡ [] }
        ensures asked { result.asked.all.items ≡ [] }
    {
        Memo {
            alloc,
            asked: AskedEnds::new(alloc),
            slots: Vec::new(alloc),
            used: 0,
            weight: 0,
        }
    }

    /// Takes out what was told of a start.
    pub(crate) fn take(&mut self, inner: &Ere, start: Start<'_>) -> Option<Told<'e>>
        ensures of { IfSome result (IsOf (view inner.now) start.entry) }
        ensures there { IfSome result (λ told. Contains self.old.slots.items (Some told)) }
        ensures kept { HasOld self.old self.new }
        ensures asked { self.new.asked ≡ self.old.asked }
    {
        let count = self.slots.len();
        if count == 0 {
            return None;
        }
        let slot = slot_for(start.from, start.held, start.live, count);
        let is_there = match &self.slots[slot] {
            Some(told) => told.is_of(inner, start),
            None => false,
        };
        if !is_there {
            return None;
        }
        let told = self.slots[slot].take()?;
        self.used = self.used.saturating_sub(1);
        self.weight = self.weight.saturating_sub(told.weight);
        Some(told)
    }

    /// Makes so many slots anew, with nothing in them.
    fn clear(&mut self, count: usize) -> Result<(), AllocError>
        ensures kept { OnOk result (HasOld self.old self.new) }
        ensures asked { self.new.asked ≡ self.old.asked }
    {
        let mut slots = Vec::with_capacity(self.alloc, count)?;
        for _ in 0..count {
            slots.push(None)?;
        }
        self.slots = slots;
        self.used = 0;
        self.weight = 0;
        Ok(())
    }

    /// Counts one more of this weight. Where there is no room, what was told before is forgotten.
    fn make_room(&mut self, weight: usize) -> Result<(), AllocError>
        ensures kept { OnOk result (HasOld self.old self.new) }
        ensures asked { self.new.asked ≡ self.old.asked }
    {
        if self.used >= self.slots.len() / 2 {
            let count = self.slots.len().saturating_mul(4).max(FIRST_SLOTS);
            self.clear(count)?;
        } else if self.weight.saturating_add(weight) > MOST_WEIGHT {
            self.clear(FIRST_SLOTS)?;
        }
        self.used = self.used.saturating_add(1);
        self.weight = self.weight.saturating_add(weight);
        Ok(())
    }

    /// Puts something in that is told.
    pub(crate) fn put(&mut self, told: Told<'e>) -> Result<(), AllocError>
        ensures kept { OnOk result (HasOldOr self.old told.entry self.new) }
        ensures asked { self.new.asked ≡ self.old.asked }
    {
        self.make_room(told.weight)?;
        let count = self.slots.len();
        if count > 0 {
            let slot = slot_for(told.from, told.held.as_slice(), told.live.as_slice(), count);
            self.slots[slot] = Some(told);
        }
        Ok(())
    }
}
