//! Where places are sought.
ghost use Rattle.std.specs.Prelude.{◌≡◌};
ghost use Rattle.ere_places.specs.declared.window.Direction.TheVariants.{Ahead};

use crate::budget::FOR_A_STEP;
use ere_places::{Direction, Window};
use std::alloc::Global;

/// As how many steps it counts at most to go through a window.
const MOST_STEPS: usize = 64;

/// A text, and the places in it from `low` to `high` that are looked at.
#[derive(Clone, Copy)]
pub(crate) struct Site<'t> {
    pub(crate) alloc: Global,
    pub(crate) text: &'t [u8],
    pub(crate) low: usize,
    pub(crate) high: usize,
}

impl<'t> Site<'t> {
    /// As how many steps it counts to go through its window.
    pub(crate) fn weight(self) -> usize {
        let width = self.high.saturating_sub(self.low);
        (width / FOR_A_STEP).min(MOST_STEPS).saturating_add(1)
    }

    /// Its window, ahead.
    pub(crate) fn window(self) -> Window
        ensures low { result.low ≡ self.entry.low }
        ensures high { result.high ≡ self.entry.high }
        ensures direction { result.direction ≡ Ahead }
    {
        Window {
            low: self.low,
            high: self.high,
            direction: Direction::Ahead,
        }
    }
}
