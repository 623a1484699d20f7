//! The words of a line: letters, digits, hyphens and underscores.
ghost use Rattle.std.specs.Prelude.{◌≡◌, ◌≤◌, length};

/// Whether a byte may stand in a prefix or a suffix.
pub(crate) fn is_word_byte(byte: u8) -> bool {
    byte.is_ascii_alphanumeric() || byte == b'-' || byte == b'_'
}

/// Where the first word behind an offset stands. It is empty, and at the end, where there is none.
pub(crate) fn next_word(line: &[u8], from: usize) -> (usize, usize)
    requires { from ≤ length line.now }
    ensures { (from ≤ result.0) × (result.0 ≤ result.1) × (result.1 ≤ length line.now) }
{
    let start = end_of(line, from, false);
    (start, end_of(line, start, true))
}

/// Where the bytes that may stand in a word, or those that may not, end.
fn end_of(line: &[u8], from: usize, in_word: bool) -> usize
    requires { from ≤ length line.now }
    ensures { (from ≤ result) × (result ≤ length line.now) }
{
    let mut at = from;
    while at < line.len() && is_word_byte(line[at]) == in_word {
        at += 1;
    }
    at
}

/// The text behind the blanks at its front.
pub(crate) fn behind_blanks(text: &[u8]) -> &[u8] {
    let mut rest = text;
    while let [b' ' | b'\t', later @ ..] = rest {
        rest = later;
    }
    rest
}
