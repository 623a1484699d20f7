//! The number that a text spells.
ghost use Rattle.std.specs.Prelude.{◌≡◌, ◌<◌, ◌≤◌, ◌^◌, IfSome, IsTrue, ℤ, Some, true, nat_lt, if◌then◌else◌, None};
ghost use Rattle.std.specs.List.{list_all};
ghost use Rattle.num_base.specs.Value.{is_value};
ghost use Rattle.num_spell.specs.Digits.{are_digits, is_digit_of};
ghost use Rattle.std.specs.Option.{option_map};
ghost use Rattle.num_spell.specs.Spelling.{Spells, behind_minus, behind_lead, begins_minus, figured, number_of, signed, spelled, valued};

use crate::digits::{base_of, is_digit_of, value_of};
use crate::front::{begins, behind};
use num_base::{Format, FormatKind};

/// Whether all bytes are digits of the kind.
fn all_digits(kind: FormatKind, text: &[u8]) -> bool
    ensures { result ≡ list_all (is_digit_of kind) text.now }
{
    text.iter().all(|byte| is_digit_of(kind, *byte))
}

/// Whether these are digits of the kind, as many as are asked for, with no zero in front past these.
fn are_digits(kind: FormatKind, written: u32, text: &[u8]) -> bool
    ensures { result ≡ are_digits kind written text.now }
{
    let written = written as usize;
    text.len() >= written.max(1)
        && all_digits(kind, text)
        && (written == 0 || text.len() == written || !begins(text, b'0'))
}

/// The number that digits write, where 128 bits hold it.
#[tactic(auto, using(crate::proofs::ValueLemmas::grows))]
pub fn number_of(text: &[u8], base: u32) -> Option<u128>
    requires base { 1 ≤ base }
    ensures { result ≡ number_of base text.now }
{
    let mut value: u128 = 0;
    for byte in text {
        let Some(raised) = value.checked_mul(u128::from(base)) else {
            return None;
        };
        let Some(next) = raised.checked_add(u128::from(value_of(*byte))) else {
            return None;
        };
        value = next;
    }
    Some(value)
}

/// The number behind an optional minus, where it is a value.
fn signed_value(negative: bool, n: u128) -> Option<i128>
    ensures { result ≡ valued (Some (signed negative n)) }
{
    if negative {
        0i128.checked_sub_unsigned(n)
    } else {
        i128::try_from(n).ok()
    }
}

/// What is behind the `0x` of an alternate format.
fn behind_lead(alternate: bool, text: &[u8]) -> Option<&[u8]>
    ensures { option_map (λ rest. rest.now) result ≡ behind_lead alternate text.now }
{
    if !alternate {
        return Some(text);
    }
    if begins(text, b'0') && begins(behind(text, 1), b'x') {
        Some(behind(text, 2))
    } else {
        None
    }
}

/// The number that a text spells, where it is a value.
#[tactic(auto, using(crate::proofs::ReadLemmas::past_is_none, crate::proofs::ReadLemmas::figured_some))]
fn read_figures(format: Format, negative: bool, figures: &[u8]) -> Option<i128>
    ensures { result ≡ valued (figured format negative figures.now) }
{
    if !are_digits(format.kind, format.digits, figures) {
        return None;
    }
    match number_of(figures, base_of(format.kind)) {
        Some(n) => signed_value(negative, n),
        None => None,
    }
}

/// The text behind a minus, where one stands there that the kind has, and whether it does.
fn split_minus(kind: FormatKind, text: &[u8]) -> (bool, &[u8])
    ensures minus { result.0 ≡ begins_minus kind text.now }
    ensures behind { result.1.now ≡ behind_minus kind text.now }
{
    if kind == FormatKind::Signed && begins(text, b'-') {
        (true, behind(text, 1))
    } else {
        (false, text)
    }
}

/// The number that a text spells, where it is a value.
fn read_spelled(format: Format, text: &[u8]) -> Option<i128>
    ensures { result ≡ valued (spelled format text.now) }
{
    let (negative, rest) = split_minus(format.kind, text);
    match behind_lead(format.alternate, rest) {
        Some(figures) => read_figures(format, negative, figures),
        None => None,
    }
}

/// The value that a text spells in the format. It takes no memory.
pub fn read_value(format: Format, text: &[u8]) -> Option<i128>
    // What is read is spelled.
    ensures found { IfSome result (λ value. Spells format text.now value) }
    // A value that is spelled is read.
    ensures only { (v : ℤ) → Spells format text.now v → IsTrue (is_value v) → result ≡ Some v }
{
    read_spelled(format, text)
}
