//! Blanks at the ends of a text.
ghost use Rattle.std.specs.Prelude.{◌≡◌, ◌≤◌, length};
ghost use Rattle.std.specs.List.{prefix_len, suffix_len};
ghost use Rattle.ere_tree.specs.Class.{is_blank};
ghost use Rattle.lit_directives.specs.Line.{front_kept, trimmed, without_return};

/// Whether a byte is a space or a tab.
pub(crate) fn is_blank(byte: u8) -> bool
    ensures { result ≡ is_blank byte }
{
    byte == b'\t' || byte == b' '
}

/// How many blanks a text begins with.
fn blanks_before(text: &[u8]) -> usize
    ensures value { result ≡ prefix_len is_blank text.now }
    ensures within { result ≤ length text.now }
{
    for (at, &byte) in text.iter().enumerate() {
        if !is_blank(byte) {
            return at;
        }
    }
    text.len()
}

/// How many blanks a text ends with.
fn blanks_behind(text: &[u8]) -> usize
    ensures value { result ≡ suffix_len is_blank text.now }
    ensures within { result ≤ length text.now }
{
    for at in (0..text.len()).rev() {
        if !is_blank(text[at]) {
            return text.len() - 1 - at;
        }
    }
    text.len()
}

/// The text without blanks at its end.
pub(crate) fn front_kept(text: &[u8]) -> &[u8]
    ensures { result.now ≡ front_kept text.now }
{
    text.split_at(text.len() - blanks_behind(text)).0
}

/// The text without blanks at its ends.
pub(crate) fn trimmed(text: &[u8]) -> &[u8]
    ensures { result.now ≡ trimmed text.now }
{
    let front = front_kept(text);
    front.split_at(blanks_before(front)).1
}

/// The line without a `\r` at its end.
pub(crate) fn without_return(line: &[u8]) -> &[u8]
    ensures value { result.now ≡ without_return line.now }
    ensures within { length result.now ≤ length line.now }
{
    if !line.is_empty() && line[line.len() - 1] == b'\r' {
        line.split_at(line.len() - 1).0
    } else {
        line
    }
}
