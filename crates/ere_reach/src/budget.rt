//! How much a search may still do.
use std::alloc::AllocError;

/// How many steps one search may take. One that wants more is given up as for want of memory.
pub const MAX_STEPS: usize = 12_000_000;

/// How many bytes or places that are looked at count as one step.
pub(crate) const FOR_A_STEP: usize = 64;

/// How many rows one search may have at a time. One that wants more is given up as for want of memory.
pub const MAX_ROWS: usize = 600_000;

/// How many steps a search may still take, and how many rows it may still make.
#[derive(Drop, Debug)]
pub struct Budget {
    given: usize,
    left: usize,
    free: usize,
}

impl Budget {
    /// So many steps, up to all of them.
    pub fn new(steps: usize) -> Budget {
        let steps = steps.min(MAX_STEPS);
        Budget {
            given: steps,
            left: steps,
            free: MAX_ROWS,
        }
    }

    /// How many steps were taken.
    pub fn taken(&self) -> usize {
        self.given.saturating_sub(self.left)
    }

    /// So many steps are taken.
    pub(crate) fn take(&mut self, count: usize) -> Result<(), AllocError> {
        if self.left < count {
            return Err(AllocError);
        }
        self.left -= count;
        Ok(())
    }

    /// So many rows are made.
    pub(crate) fn keep(&mut self, count: usize) -> Result<(), AllocError> {
        if self.free < count {
            return Err(AllocError);
        }
        self.free -= count;
        Ok(())
    }

    /// So many rows are there no longer.
    pub(crate) fn release(&mut self, count: usize) {
        self.free = self.free.saturating_add(count);
    }
}
