//! What is kept: states, and a table that leads to them by what is read of them.
ghost use Rattle.std.specs.Prelude.{◌≡◌, ◌<◌, ◌∷◌, ◌++◌, [], length, true, map, IfOk, OnOk};
ghost use Rattle.ere_refs.specs.Lists.{items_in};
ghost use Rattle.ere_refs.specs.Machine.{HasLikeState, IsLikeState, caps_at};

use crate::live::{agree, held_for};
use ere_tree::Cap;
use std::alloc::{AllocError, Global};

/// How far a row has come: so many parts or members are gone, it stands at a place, and groups hold this.
#[derive(Drop)]
pub(crate) struct State {
    pub(crate) stage: usize,
    pub(crate) place: usize,
    pub(crate) caps: Vec<Option<Cap>>,
}

/// How many slots of the table are looked at for one state.
const FEW: usize = 8;

/// An odd number without order.
const MIX: u64 = 0x9E37_79B9_7F4A_7C15;

/// States, in the order in which they came. The table may forget one.
#[derive(Drop)]
pub(crate) struct Kept {
    pub(crate) states: Vec<State>,
    /// What their places in the table are told from.
    hashes: Vec<u64>,
    /// The index of a state and 1, or 0.
    slots: Vec<usize>,
}

/// A number that is the same for states that agree.
fn hash_of(state: &State, live: &[u32]) -> u64 {
    let mut hash = (state.stage as u64).wrapping_mul(MIX) ^ state.place as u64;
    for number in live {
        let (from, to) = match held_for(state.caps.as_slice(), *number) {
            Some(cap) => (cap.from as u64, cap.to as u64),
            None => (MIX, MIX),
        };
        hash = (hash.rotate_left(11) ^ from).wrapping_mul(MIX);
        hash = (hash.rotate_left(11) ^ to).wrapping_mul(MIX);
    }
    (hash ^ (hash >> 29)).wrapping_mul(MIX)
}

/// The slot of a hash in a table of so many.
fn slot_of(hash: u64, count: usize) -> usize
    requires { 0 < count }
    ensures { result < count }
{
    ((hash >> 20) % (count as u64)) as usize
}

/// The first free slot from one on, of the next few, or that one.
fn free_slot(slots: &[usize], first: usize) -> usize
    requires { first < length slots.now }
    ensures { result < length slots.now }
{
    for more in 0..FEW {
        let slot = first.saturating_add(more);
        if slot < slots.len() && slots[slot] == 0 {
            return slot;
        }
    }
    first
}

/// Whether two states have come as far, and agree on what is read.
fn is_like(one: &State, other: &State, live: &[u32]) -> bool
    ensures { result ≡ true → IsLikeState live.now one.now other.now }
{
    one.stage == other.stage
        && one.place == other.place
        && agree(live, one.caps.as_slice(), other.caps.as_slice())
}

impl Kept {
    pub(crate) fn new(alloc: Global) -> Kept
        ensures { result.states.items ≡ [] }
    {
        Kept {
            states: Vec::new(alloc),
            hashes: Vec::new(alloc),
            slots: Vec::new(alloc),
        }
    }

    pub(crate) fn len(&self) -> usize
        ensures { result ≡ length self.now.states.items }
    {
        self.states.len()
    }

    /// Whether the state with this index has come as far, and agrees.
    fn is_there(&self, index: usize, state: &State, live: &[u32]) -> bool
        ensures { result ≡ true → HasLikeState live.now self.now.states.items state.now }
    {
        index < self.states.len() && is_like(&self.states[index], state, live)
    }

    /// Whether a state that has come as far and agrees on what is read is found.
    pub(crate) fn has(&self, state: &State, live: &[u32]) -> bool
        ensures { result ≡ true → HasLikeState live.now self.now.states.items state.now }
    {
        let count = self.slots.len();
        if count == 0 {
            for index in 0..self.states.len() {
                if self.is_there(index, state, live) {
                    return true;
                }
            }
            return false;
        }
        let first = slot_of(hash_of(state, live), count);
        for more in 0..FEW {
            let slot = first.saturating_add(more);
            let index = if slot < count { self.slots[slot] } else { 0 };
            if index > 0 && self.is_there(index - 1, state, live) {
                return true;
            }
        }
        false
    }

    /// Makes the table anew, four times as large as there are states.
    fn rebuild(&mut self, alloc: Global) -> Result<(), AllocError>
        ensures { self.new.states.items ≡ self.old.states.items }
    {
        let count = self.states.len().saturating_mul(4).max(4 * FEW);
        let mut slots = vec![in alloc; 0usize; count]?;
        for (index, hash) in self.hashes.iter().enumerate() {
            let slot = free_slot(slots.as_slice(), slot_of(*hash, count));
            slots[slot] = index.saturating_add(1);
        }
        self.slots = slots;
        Ok(())
    }

    /// Adds a state.
    pub(crate) fn put(
        &mut self,
        alloc: Global,
        state: State,
        live: &[u32],
    ) -> Result<(), AllocError>
        ensures { OnOk result (self.new.states.items ≡ self.old.states.items ++ state ∷ []) }
    {
        let hash = hash_of(&state, live);
        self.states.push(state)?;
        self.hashes.push(hash)?;
        let count = self.states.len();
        if count <= FEW {
            return Ok(());
        }
        if self.slots.len() < count.saturating_mul(2) {
            return self.rebuild(alloc);
        }
        let slot = free_slot(self.slots.as_slice(), slot_of(hash, self.slots.len()));
        self.slots[slot] = count;
        Ok(())
    }

    /// What groups hold in each of the states, in order.
    pub(crate) fn into_caps(self, alloc: Global) -> Result<Vec<Vec<Option<Cap>>>, AllocError>
        ensures { IfOk result (λ all. items_in all ≡ map caps_at self.states.items) }
    {
        let mut all = Vec::new(alloc);
        for state in self.states {
            all.push(state.caps)?;
        }
        Ok(all)
    }
}
