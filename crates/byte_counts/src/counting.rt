//! How often a byte stands in a text.
ghost use Rattle.std.specs.Prelude.{◌≡◌, ◌≤◌, count_by, length};
ghost use Rattle.byte_counts.specs.Counts.{is_byte};

use crate::lanes::{LANES, count_in};

/// How often a byte stands in a text.
pub fn count_of(byte: u8, text: &[u8]) -> usize
    ensures value { result ≡ count_by (is_byte byte) text.now }
    ensures within { result ≤ length text.now }
{
    let mut count = 0;
    let mut at = 0;
    while text.len() - at >= LANES {
        count += count_in(byte, text, at);
        at += LANES;
    }
    count + rest_of(byte, &text[at..])
}

/// The same of a few bytes.
fn rest_of(byte: u8, text: &[u8]) -> usize
    ensures value { result ≡ count_by (is_byte byte) text.now }
    ensures within { result ≤ length text.now }
{
    text.iter().filter(|other| **other == byte).count()
}
