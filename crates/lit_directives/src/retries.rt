//! Numbers of retries.
ghost use Rattle.std.specs.Prelude.{◌≡◌};
ghost use Rattle.lit_directives.specs.Script.{retries_of};

use crate::fault::MAX_RETRIES;
use crate::front::trimmed;
use opt_words::decimal;

/// The number of retries, where one from 0 to 100 stands here.
pub(crate) fn retries_of(rest: &[u8]) -> Option<u32>
    ensures { result ≡ retries_of rest.now }
{
    match decimal(trimmed(rest)) {
        Some(number) if number <= MAX_RETRIES as u64 => Some(number as u32),
        Some(_) | None => None,
    }
}
