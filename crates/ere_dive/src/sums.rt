//! Sums by which states are told apart. Two that have the same one may be different.

/// An odd number without order.
const MIX: u64 = 0x9E37_79B9_7F4A_7C15;

/// How many slots a table has at first.
const FIRST_SLOTS: usize = 256;

/// How many slots it has at most.
const MOST_SLOTS: usize = 1 << 18;

use std::alloc::{AllocError, Global};

/// The sum of a number behind others.
pub(crate) fn mixed(sum: u64, one: u64) -> u64 {
    let mixed = (sum.rotate_left(11) ^ one).wrapping_mul(MIX);
    mixed ^ (mixed >> 29)
}

/// The sum of a text.
pub(crate) fn sum_of(bytes: &[u8]) -> u64 {
    let mut sum = bytes.len() as u64;
    for byte in bytes {
        sum = mixed(sum, *byte as u64);
    }
    sum
}

/// A set of sums, which may forget.
#[derive(Drop)]
pub(crate) struct Sums {
    alloc: Global,
    slots: Vec<u64>,
    used: usize,
}

impl Sums {
    pub(crate) fn new(alloc: Global) -> Sums {
        Sums {
            alloc,
            slots: Vec::new(alloc),
            used: 0,
        }
    }

    /// Puts a sum where its slot is free or has another one, and tells whether it wasn't there.
    fn set(&mut self, sum: u64) -> bool {
        let count = self.slots.len();
        if count == 0 {
            return true;
        }
        let slot = ((sum >> 20) % (count as u64)) as usize;
        if slot < count && self.slots[slot] != sum {
            if self.slots[slot] == 0 {
                self.used = self.used.saturating_add(1);
            }
            self.slots[slot] = sum;
            return true;
        }
        false
    }

    /// Makes it four times as large.
    fn grow(&mut self) -> Result<(), AllocError> {
        let count = self
            .slots
            .len()
            .saturating_mul(4)
            .clamp(FIRST_SLOTS, MOST_SLOTS);
        let more = vec![in self.alloc; 0u64; count]?;
        let before = std::mem::replace(&mut self.slots, more);
        self.used = 0;
        for sum in &before {
            if *sum != 0 {
                self.set(*sum);
            }
        }
        Ok(())
    }

    /// Adds a sum, and tells whether it is new.
    pub(crate) fn put(&mut self, sum: u64) -> Result<bool, AllocError> {
        let count = self.slots.len();
        if self.used >= count / 2 && count < MOST_SLOTS {
            self.grow()?;
        }
        Ok(self.set(sum))
    }
}
