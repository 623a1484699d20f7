//! Bytes in a row at the front of a text.
ghost use Rattle.std.specs.Prelude.{◌≡◌, ◌≤◌, ◌<◌, IsTrue, length};
ghost use Rattle.std.specs.List.{prefix_len};
ghost use Rattle.ere_tree.specs.Front.{begins_with};
ghost use Rattle.num_exprs.specs.Row.{is_in_row};

/// Bytes that may stand in a row.
#[derive(Clone, Copy, Debug, PartialEq, Eq)]
pub(crate) enum Row {
    Blanks,
    Digits,
    /// Of either case.
    HexDigits,
    /// Those with which a name goes on.
    NameBytes,
}

/// Whether a byte may stand in the row.
fn is_in_row(row: Row, byte: u8) -> bool
    ensures { result ≡ is_in_row row byte }
{
    match row {
        Row::Blanks => byte == b' ' || byte == b'\t',
        Row::Digits => byte.is_ascii_digit(),
        Row::HexDigits => byte.is_ascii_hexdigit(),
        Row::NameBytes => byte.is_ascii_alphanumeric() || byte == b'_',
    }
}

/// How many bytes at the front stand in the row.
pub(crate) fn row_length(text: &[u8], row: Row) -> usize
    ensures exact { result ≡ prefix_len (is_in_row row) text.now }
    ensures within { result ≤ length text.now }
{
    for (at, byte) in text.iter().enumerate() {
        if !is_in_row(row, *byte) {
            return at;
        }
    }
    text.len()
}

/// Whether the text begins with a byte of the row.
#[tactic(auto, using(ere_tree::proofs::FrontLemmas::begins_some, ere_tree::proofs::FrontLemmas::begins_none))]
pub(crate) fn begins_row(text: &[u8], row: Row) -> bool
    ensures exact { result ≡ begins_with (is_in_row row) text.now }
    ensures some { IsTrue result → 0 < length text.now }
{
    match text.first() {
        Some(first) => is_in_row(row, *first),
        None => false,
    }
}
