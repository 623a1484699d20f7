//! Decimal numbers.
ghost use Rattle.std.specs.Prelude.{◌≡◌, ◌^◌, ◌<◌};
ghost use Rattle.opt_words.specs.Number.{decimal, is_digit, is_number, with_digit};

/// The number that a text of decimal digits spells, also with leading zeros. None for any other text, and past
/// `u64::MAX`.
#[tactic(auto, using(crate::proofs::NumberLemmas::taken_digit, crate::proofs::NumberLemmas::refused_digit))]
pub fn decimal(text: &[u8]) -> Option<u64>
    ensures { result ≡ decimal text.now }
{
    if text.is_empty() {
        return None;
    }
    let mut number = 0;
    for byte in text {
        match with_digit(number, *byte) {
            Some(longer) => number = longer,
            None => return None,
        }
    }
    Some(number)
}

/// The number with one more digit, if the byte is one and the number doesn't pass 64 bits.
fn with_digit(number: u64, byte: u8) -> Option<u64>
    ensures { result ≡ with_digit number byte }
{
    if !is_digit(byte) {
        return None;
    }
    number.checked_mul(10)?.checked_add(u64::from(byte - b'0'))
}

fn is_digit(byte: u8) -> bool
    ensures { result ≡ is_digit byte }
{
    byte >= b'0' && byte <= b'9'
}

/// Whether the text spells a number from `least` to `most`.
pub(crate) fn is_number(least: u64, most: u64, text: &[u8]) -> bool
    ensures { result ≡ is_number least most text.now }
{
    match decimal(text) {
        None => false,
        Some(number) => least <= number && number <= most,
    }
}
