//! How often something may be tried, and how much may be kept.
use std::alloc::{AllocError, Global};

/// How many ends of parts one search may look at. One that wants more is given up as for want of memory.
pub const MAX_TRIES: usize = 10_000_000;

/// How many states one search may keep at a time. One that wants more is given up as for want of memory.
pub const MAX_KEPT: usize = 800_000;

/// How many ends a search may still look at, and how many states it may still keep.
#[derive(Drop, Debug)]
pub struct Tries {
    pub(crate) alloc: Global,
    left: usize,
    free: usize,
}

impl Tries {
    /// All of them.
    pub fn new(alloc: Global) -> Tries {
        Tries {
            alloc,
            left: MAX_TRIES,
            free: MAX_KEPT,
        }
    }

    /// Up to so many of those that are left. They are taken away.
    pub fn part(&mut self, most: usize) -> Tries {
        let count = self.left.min(most);
        self.left -= count;
        Tries {
            alloc: self.alloc,
            left: count,
            free: MAX_KEPT,
        }
    }

    /// What is left of a part of them is put back.
    pub fn join(&mut self, part: Tries) {
        self.left = self.left.saturating_add(part.left);
    }

    /// How many ends may still be looked at.
    pub fn left(&self) -> usize {
        self.left
    }

    /// The memory that tries are made in.
    pub fn memory(&self) -> Global {
        self.alloc
    }

    /// So many ends are looked at.
    pub(crate) fn take(&mut self, count: usize) -> Result<(), AllocError> {
        if self.left < count {
            return Err(AllocError);
        }
        self.left -= count;
        Ok(())
    }

    /// One more state is kept.
    pub(crate) fn keep(&mut self) -> Result<(), AllocError> {
        if self.free == 0 {
            return Err(AllocError);
        }
        self.free -= 1;
        Ok(())
    }

    /// So many states are kept no longer.
    pub(crate) fn release(&mut self, count: usize) {
        self.free = self.free.saturating_add(count);
    }
}
