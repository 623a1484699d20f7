//! Which names a walk passes over, and which files are tests.
ghost use Rattle.std.specs.Prelude.{◌≡◌};
ghost use Rattle.std.specs.List.{list_any};
ghost use Rattle.std.specs.Str.{bytes_eq};
ghost use Rattle.lit_dirs.specs.Passing.{has_suffix, is_passed};

use lit_suite::Suite;
use tt_base::Bytes;

/// Whether a name is one of these.
fn is_one_of(names: &[Bytes], name: &[u8]) -> bool
    ensures { result ≡ list_any (λ one. bytes_eq one name.now) names.now }
{
    names.iter().any(|one| one.as_slice() == name)
}

/// Whether a name is passed over in a directory of this suite, with what is below it.
pub fn is_passed(suite: &Suite, name: &[u8]) -> bool
    ensures { result ≡ is_passed suite.now name.now }
{
    name.starts_with(b".".as_slice())
        || name == b"Output".as_slice()
        || is_one_of(suite.excludes.as_slice(), name)
}

/// Whether a path ends in a suffix of this suite.
pub fn has_suffix(suite: &Suite, path: &[u8]) -> bool
    ensures { result ≡ has_suffix suite.now path.now }
{
    suite
        .suffixes
        .as_slice()
        .iter()
        .any(|suffix| path.ends_with(suffix.as_slice()))
}
