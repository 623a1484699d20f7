//! Letters in both cases.
ghost use Rattle.std.specs.Prelude.{◌≡◌, [], ◌∷◌};
ghost use Rattle.ere_tree.specs.Case.{both_cases, is_folded};
ghost use Rattle.ere_tree.specs.View.{members_of};

use crate::byte_set::ByteSet;

/// Whether a byte stands for both its cases.
pub(crate) fn is_folded(fold: bool, byte: u8) -> bool
    ensures { result ≡ is_folded fold byte }
{
    fold && byte.is_ascii_alphabetic()
}

/// The set of a letter's two cases.
pub(crate) fn letter(byte: u8) -> ByteSet
    ensures { members_of result.bits ≡ both_cases (byte ∷ []) }
{
    ByteSet::of_byte(byte).both_cases()
}
