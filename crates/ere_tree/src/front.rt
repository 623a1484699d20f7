//! What stands at the front of a text.
ghost use Rattle.std.specs.Prelude.{◌≡◌, ◌≤◌, ◌<◌, IsTrue, length, drop};
ghost use Rattle.ere_tree.specs.Front.{begins, begins_with};
ghost use Rattle.ere_tree.specs.Class.{is_digit};

/// Whether the text begins with this byte.
#[tactic(auto, using(crate::proofs::FrontLemmas::begins_some, crate::proofs::FrontLemmas::begins_none))]
pub(crate) fn begins(text: &[u8], byte: u8) -> bool
    ensures exact { result ≡ begins byte text.now }
    ensures some { IsTrue result → 0 < length text.now }
{
    match text.first() {
        Some(first) => *first == byte,
        None => false,
    }
}

/// Whether the text begins with a decimal digit.
#[tactic(auto, using(crate::proofs::FrontLemmas::begins_some, crate::proofs::FrontLemmas::begins_none))]
pub(crate) fn begins_digit(text: &[u8]) -> bool
    ensures exact { result ≡ begins_with is_digit text.now }
    ensures some { IsTrue result → 0 < length text.now }
{
    match text.first() {
        Some(first) => *first >= b'0' && *first <= b'9',
        None => false,
    }
}

/// The text without so many bytes at its front.
pub(crate) fn behind(text: &[u8], count: usize) -> &[u8]
    requires { count ≤ length text.now }
    ensures { result.now ≡ drop count text.now }
{
    text.split_at(count).1
}
