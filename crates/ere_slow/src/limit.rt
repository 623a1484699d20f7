//! How much a search may list.
use std::alloc::AllocError;

/// How many steps one search may list, each for a part or member of a way that is made, an item of what groups hold beside
/// it, or the room that a list takes. One that wants more is given up as for want of memory.
pub const MAX_STEPS: usize = 5_000_000;

/// How many steps a search may still list.
#[derive(Drop, Debug)]
pub struct Limit {
    left: usize,
}

impl Limit {
    /// All of them.
    pub fn new() -> Limit {
        Limit { left: MAX_STEPS }
    }

    /// So many steps are listed.
    pub(crate) fn take(&mut self, count: usize) -> Result<(), AllocError> {
        if self.left < count {
            return Err(AllocError);
        }
        self.left -= count;
        Ok(())
    }
}
