//! What stands at the front of a text.
ghost use Rattle.std.specs.Prelude.{◌≡◌, ◌≤◌, ◌<◌, IsTrue, length, drop};
ghost use Rattle.ere_tree.specs.Front.{begins};

/// Whether the text begins with this byte.
#[tactic(auto, using(ere_tree::proofs::FrontLemmas::begins_some, ere_tree::proofs::FrontLemmas::begins_none))]
pub fn begins(text: &[u8], byte: u8) -> bool
    ensures exact { result ≡ begins byte text.now }
    ensures some { IsTrue result → 0 < length text.now }
{
    match text.first() {
        Some(first) => *first == byte,
        None => false,
    }
}

/// The text without so many bytes at its front.
pub fn behind(text: &[u8], count: usize) -> &[u8]
    requires { count ≤ length text.now }
    ensures { result.now ≡ drop count text.now }
{
    text.split_at(count).1
}
