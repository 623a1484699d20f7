//! Windows of a text.
ghost use Rattle.std.specs.Prelude.{◌≡◌, ◌+◌, ◌<◌, ◌≤◌, false, true, length, IfOk, slice_index_or};
ghost use Rattle.text_windows.specs.Windows.{Covers, Exclude, slot_at};

use std::alloc::Global;
use std::marker::Model;
use tt_base::NoMemory;

/// How many bytes a window has.
pub(crate) const WIDTH: usize = 4;

/// In how many slots the windows are kept. Two windows may share one.
const SLOTS: usize = 1 << 18;

/// The slots of all windows of a text.
#[derive(Drop)]
pub struct Windows {
    marked: Vec<bool>,
}

impl Model for Windows {
    ghost use Rattle.std.specs.Prelude.{Bool, List, ◌≡◌, length};

    ghost Value = { List Bool };

    ghost view = { λ windows. windows.marked.items };

    ghost invariant = { λ windows. length windows.marked.items ≡ 262144 };
}

/// The slot of the window at a place.
#[tactic(auto, unfolding(crate::specs::Windows::slot_at))]
pub(crate) fn slot_at(text: &[u8], at: usize) -> usize
    requires { at + 4 ≤ length text.now }
    ensures value { result ≡ slot_at text.now at }
    ensures within { result < 262144 }
{
    const MIX: u32 = 2_654_435_761;
    let low = text[at] as u32 + 256 * text[at + 1] as u32;
    let high = text[at + 2] as u32 + 256 * text[at + 3] as u32;
    ((low + 65_536 * high).wrapping_mul(MIX) / 16_384) as usize
}

impl Windows {
    /// The windows of a text. They take a quarter of a MiB.
    pub fn of(alloc: Global, text: &[u8]) -> Result<Windows, NoMemory>
        ensures { IfOk result (λ windows. Covers windows text.now) }
    {
        let Ok(marked) = vec![in alloc; false; SLOTS] else {
            return Err(NoMemory);
        };
        let mut windows = Windows { marked };
        windows.mark(text);
        Ok(windows)
    }

    /// Marks the slot of each window.
    fn mark(&mut self, text: &[u8])
        ensures { Covers self.new text.now }
    {
        if text.len() < WIDTH {
            return;
        }
        for at in 0..text.len() - (WIDTH - 1) {
            self.marked[slot_at(text, at)] = true;
        }
    }

    /// Whether a window of this text is none of theirs, so that it doesn't stand there. One that is shorter than a window
    /// is never told absent.
    #[tactic(auto, using(crate::proofs::WindowLemmas::lacking))]
    pub fn lack(&self, needle: &[u8]) -> bool
        ensures { result ≡ true → Exclude self.now needle.now }
    {
        if needle.len() < WIDTH {
            return false;
        }
        for at in 0..needle.len() - (WIDTH - 1) {
            if !self.marked[slot_at(needle, at)] {
                return true;
            }
        }
        false
    }
}
