//! Bytes of a kind, and how many of them a text begins or ends with.
ghost use Rattle.std.specs.Prelude.{◌≡◌, ◌≤◌, length};
ghost use Rattle.std.specs.List.{prefix_len, suffix_len};
ghost use Rattle.check_lines.specs.Class.{has, is_letter};

use crate::canonical::is_blank;

/// A kind of bytes.
#[derive(Clone, Copy, Debug, PartialEq, Eq)]
pub enum Class {
    Blank,
    Digit,
    /// What may stand between the braces of a modifier: a letter, a blank or a comma.
    Modifier,
}

/// Whether a byte is of a class.
#[inline]
fn has(class: Class, byte: u8) -> bool
    ensures { result ≡ has class byte }
{
    match class {
        Class::Blank => is_blank(byte),
        Class::Digit => matches!(byte, b'0'..=b'9'),
        Class::Modifier => is_letter(byte) || is_blank(byte) || byte == b',',
    }
}

fn is_letter(byte: u8) -> bool
    ensures { result ≡ is_letter byte }
{
    matches!(byte, b'a'..=b'z' | b'A'..=b'Z')
}

/// How many bytes of a class a text begins with.
pub fn front_length(class: Class, text: &[u8]) -> usize
    ensures value { result ≡ prefix_len (has class) text.now }
    ensures within { result ≤ length text.now }
{
    for (at, &byte) in text.iter().enumerate() {
        if !has(class, byte) {
            return at;
        }
    }
    text.len()
}

/// How many bytes of a class a text ends with.
pub fn back_length(class: Class, text: &[u8]) -> usize
    ensures value { result ≡ suffix_len (has class) text.now }
    ensures within { result ≤ length text.now }
{
    for at in (0..text.len()).rev() {
        if !has(class, text[at]) {
            return text.len() - 1 - at;
        }
    }
    text.len()
}
