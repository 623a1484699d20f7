//! Where the windows of a text stand first.
ghost use Rattle.std.specs.Prelude.{◌≡◌, ◌+◌, ◌<◌, ◌≤◌, length, IfOk, slice_index_or};
ghost use Rattle.text_windows.specs.Windows.{ArePlaces, Delay, slot_at};

use crate::windows::{WIDTH, slot_at};
use std::alloc::Global;
use std::marker::Model;
use tt_base::NoMemory;

/// How many slots of windows share a place.
const SHARE: usize = 4;

/// How many places are kept.
const PLACES: usize = 1 << 16;

/// A place for the slots of the windows of a text, before which none of them begins.
#[derive(Drop)]
pub struct Firsts {
    places: Vec<usize>,
}

impl Model for Firsts {
    ghost use Rattle.std.specs.Prelude.{ℕ, List, ◌≡◌, length};

    ghost Value = { List ℕ };

    ghost view = { λ firsts. firsts.places.items };

    ghost invariant = { λ firsts. length firsts.places.items ≡ 65536 };
}

impl Firsts {
    /// The first places of the windows of a text. They take half a MiB.
    pub fn of(alloc: Global, text: &[u8]) -> Result<Firsts, NoMemory>
        ensures { IfOk result (λ firsts. ArePlaces firsts text.now) }
    {
        let Ok(places) = vec![in alloc; text.len(); PLACES] else {
            return Err(NoMemory);
        };
        let mut firsts = Firsts { places };
        firsts.mark(text);
        Ok(firsts)
    }

    /// Keeps the place of each window, from the last to the first.
    fn mark(&mut self, text: &[u8])
        ensures { ArePlaces self.new text.now }
    {
        if text.len() < WIDTH {
            return;
        }
        let mut at = text.len() - (WIDTH - 1);
        while at > 0 {
            at -= 1;
            self.places[slot_at(text, at) / SHARE] = at;
        }
    }

    /// A place before which a text doesn't begin in this one, as far as its windows tell.
    pub fn earliest(&self, needle: &[u8]) -> usize
        ensures { Delay self.now needle.now result }
    {
        if needle.len() < WIDTH {
            return 0;
        }
        let mut earliest = 0;
        for at in 0..needle.len() - (WIDTH - 1) {
            let place = self.places[slot_at(needle, at) / SHARE];
            earliest = earliest.max(place.saturating_sub(at));
        }
        earliest
    }
}
