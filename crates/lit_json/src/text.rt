//! Names and paths that are text.
ghost use Rattle.std.specs.Prelude.{◌≡◌, true};
ghost use Rattle.std.specs.Str.{is_utf8};
ghost use Rattle.lit_json.specs.Trials.{is_text};

use std::str::from_utf8;
use tt_outside::Test;

/// Whether bytes are UTF-8.
#[tactic(auto, using(crate::proofs::TextLemmas::text_is, crate::proofs::TextLemmas::no_text))]
fn is_utf8(bytes: &[u8]) -> bool
    ensures { result ≡ is_utf8 bytes.now }
{
    from_utf8(bytes).is_ok()
}

/// Whether a report in JSON can tell of a test: its name and its path are UTF-8. It takes no memory.
pub fn is_text(test: &Test) -> bool
    ensures { result ≡ is_text test.now }
{
    is_utf8(test.name.as_slice()) && is_utf8(test.path.as_slice())
}

/// Bytes as a text.
pub(crate) fn text_of(bytes: &[u8]) -> &str
    requires { is_utf8 bytes.now ≡ true }
    ensures { result.now ≡ bytes.now }
{
    match from_utf8(bytes) {
        Ok(text) => text,
        Err(_) => unreachable!(),
    }
}
