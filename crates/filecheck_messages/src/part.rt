//! A line of a text that several hold, which isn't copied.
ghost use Rattle.std.specs.Prelude.{◌≡◌, ◌≤◌, ◌-◌, IfOk, drop, length, take};

use std::alloc::Global;
use std::marker::Model;
use tt_base::NoMemory;
use tt_outside::SharedBytes;

/// A part of a text that several hold.
#[derive(Drop, Debug)]
pub struct TextPart {
    text: SharedBytes,
    from: usize,
    to: usize,
}

impl Model for TextPart {
    ghost use Rattle.std.specs.Prelude.{◌≤◌, ◌-◌, List, ℕ, drop, length, take};

    ghost Value = { List ℕ };

    ghost view = { λ part. take (part.to - part.from) (drop part.from part.text) };

    ghost invariant = { λ part. (part.from ≤ part.to) × (part.to ≤ length part.text) };
}

impl TextPart {
    /// A part of a text, from an offset to another one.
    pub fn new(text: SharedBytes, from: usize, to: usize) -> TextPart
        requires ordered { from ≤ to }
        requires within { to ≤ length text }
        ensures { result ≡ take (to - from) (drop from text) }
    {
        TextPart { text, from, to }
    }

    /// A copy of bytes.
    pub fn copied(alloc: Global, bytes: &[u8]) -> Result<TextPart, NoMemory>
        ensures { IfOk result (λ part. part ≡ bytes.now) }
    {
        let text = SharedBytes::from_slice(alloc, bytes)?;
        Ok(TextPart {
            text,
            from: 0,
            to: bytes.len(),
        })
    }

    /// The bytes, in order.
    pub fn as_slice(&self) -> &[u8]
        ensures { result.now ≡ self.now }
    {
        &self.text.as_slice()[self.from..self.to]
    }
}
