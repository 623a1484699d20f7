//! Digits of a number.
ghost use Rattle.std.specs.Prelude.{◌≡◌, ◌<◌, ◌≤◌};
ghost use Rattle.std.specs.Fmt.{digit_glyph};
ghost use Rattle.std.specs.Char.{digit_value};
ghost use Rattle.num_spell.specs.Digits.{base_of, is_digit_of, is_upper_of};

use num_base::FormatKind;

/// The base in which the digits of the kind count.
pub(crate) fn base_of(kind: FormatKind) -> u32
    ensures exact { result ≡ base_of kind }
    ensures low { 10 ≤ result }
    ensures high { result ≤ 16 }
{
    match kind {
        FormatKind::Unsigned => 10,
        FormatKind::Signed => 10,
        FormatKind::LowerHex => 16,
        FormatKind::UpperHex => 16,
    }
}

/// Whether a byte is a digit of the kind.
pub(crate) fn is_digit_of(kind: FormatKind, byte: u8) -> bool
    ensures { result ≡ is_digit_of kind byte }
{
    let decimal = byte >= b'0' && byte <= b'9';
    match kind {
        FormatKind::Unsigned => decimal,
        FormatKind::Signed => decimal,
        FormatKind::LowerHex => decimal || byte >= b'a' && byte <= b'f',
        FormatKind::UpperHex => decimal || byte >= b'A' && byte <= b'F',
    }
}

/// Whether hex digits are written in upper case.
pub(crate) fn is_upper_of(kind: FormatKind) -> bool
    ensures { result ≡ is_upper_of kind }
{
    match kind {
        FormatKind::Unsigned => false,
        FormatKind::Signed => false,
        FormatKind::LowerHex => false,
        FormatKind::UpperHex => true,
    }
}

/// The digit of a value below 16.
pub(crate) fn glyph(upper: bool, value: u8) -> u8
    requires { value < 16 }
    ensures { result ≡ digit_glyph upper value }
{
    if value < 10 {
        b'0' + value
    } else if upper {
        b'A' - 10 + value
    } else {
        b'a' - 10 + value
    }
}

/// The value of a digit, and 36 of a byte that is none.
pub(crate) fn value_of(byte: u8) -> u8
    ensures exact { result ≡ digit_value byte }
    ensures small { result ≤ 36 }
{
    if byte < b'0' {
        36
    } else if byte <= b'9' {
        byte - b'0'
    } else if byte < b'A' {
        36
    } else if byte <= b'Z' {
        byte - b'A' + 10
    } else if byte < b'a' {
        36
    } else if byte <= b'z' {
        byte - b'a' + 10
    } else {
        36
    }
}
