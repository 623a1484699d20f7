//! What stands at the front of a text.
ghost use Rattle.std.specs.Prelude.{◌≡◌, ◌≤◌, ◌<◌, IsTrue, drop, length};
ghost use Rattle.std.specs.List.{prefix_len};
ghost use Rattle.ere_tree.specs.Class.{is_blank};
ghost use Rattle.ere_tree.specs.Front.{begins, begins_with};
ghost use Rattle.bool_exprs.specs.Piece.{is_in_name};

/// Whether the text begins with this byte.
#[tactic(auto, using(ere_tree::proofs::FrontLemmas::begins_some, ere_tree::proofs::FrontLemmas::begins_none))]
pub(crate) fn begins(text: &[u8], byte: u8) -> bool
    ensures exact { result ≡ begins byte text.now }
    ensures some { IsTrue result → 0 < length text.now }
{
    match text.first() {
        Some(first) => *first == byte,
        None => false,
    }
}

/// Whether the text begins with a blank.
#[tactic(auto, using(ere_tree::proofs::FrontLemmas::begins_some, ere_tree::proofs::FrontLemmas::begins_none))]
pub(crate) fn begins_blank(text: &[u8]) -> bool
    ensures exact { result ≡ begins_with is_blank text.now }
    ensures some { IsTrue result → 0 < length text.now }
{
    match text.first() {
        Some(first) => *first == b' ' || *first == b'\t',
        None => false,
    }
}

/// The text without so many bytes at its front.
pub(crate) fn behind(text: &[u8], count: usize) -> &[u8]
    requires { count ≤ length text.now }
    ensures { result.now ≡ drop count text.now }
{
    text.split_at(count).1
}

fn is_in_name(byte: u8) -> bool
    ensures { result ≡ is_in_name byte }
{
    byte.is_ascii_alphanumeric()
        || byte == b'-'
        || byte == b'+'
        || byte == b'='
        || byte == b'.'
        || byte == b'_'
}

/// How many bytes of a name stand at the front.
pub(crate) fn name_length(text: &[u8]) -> usize
    ensures exact { result ≡ prefix_len is_in_name text.now }
    ensures within { result ≤ length text.now }
{
    for (at, byte) in text.iter().enumerate() {
        if !is_in_name(*byte) {
            return at;
        }
    }
    text.len()
}
