//! How a number is printed.
ghost use Rattle.std.specs.Prelude.{◌≡◌, ◌<◌, ◌≤◌, ◌++◌, ◌-◌, IfOk, IfSome, OnOk, length, replicate, reverse, unsigned_abs};
ghost use Rattle.std.specs.Fmt.{digits};
ghost use Rattle.num_spell.specs.Spelling.{Spells, can_print, least, padded, printed, prints};

use crate::digits::{base_of, glyph, is_upper_of};
use num_base::{Format, FormatKind};
use std::alloc::{AllocError, Global};
use tt_base::{Bytes, NoMemory};

/// Numbers of 128 bits have fewer digits than this in each base from 4 on.
const MOST_DIGITS: usize = 64;

/// The digits of a number, the last one first.
fn digits_from_last(alloc: Global, n: u128, base: u128, upper: bool) -> Result<Vec<u8>, AllocError>
    requires low { 10 ≤ base }
    requires high { base ≤ 16 }
    ensures { IfOk result (λ made. reverse made.items ≡ digits base upper n) }
{
    let mut made = Vec::new(alloc);
    let mut rest = n;
    for taken in 0..MOST_DIGITS {
        made.push(glyph(upper, (rest % base) as u8))?;
        rest /= base;
        if rest == 0 {
            return Ok(made);
        }
    }
    Ok(made)
}

/// Adds zeros.
#[tactic(auto, using(crate::proofs::PrintLemmas::one_zero))]
fn add_zeros(out: &mut Vec<u8>, count: usize) -> Result<(), AllocError>
    ensures { OnOk result (out.new.items ≡ out.old.items ++ replicate count 48) }
{
    for added in 0..count {
        out.push(b'0')?;
    }
    Ok(())
}

/// Adds the digits of a number, with zeros in front up to so many.
fn add_padded(
    alloc: Global,
    out: &mut Vec<u8>,
    kind: FormatKind,
    written: u32,
    n: u128,
) -> Result<(), AllocError>
    ensures { OnOk result (out.new.items ≡ out.old.items ++ padded kind written n) }
{
    let mut made = digits_from_last(alloc, n, u128::from(base_of(kind)), is_upper_of(kind))?;
    add_zeros(out, (written as usize).saturating_sub(made.len()))?;
    made.reverse();
    out.extend_from_slice(made.as_slice())
}

/// The number as it is printed.
fn text_of(alloc: Global, format: Format, value: i128) -> Result<Vec<u8>, AllocError>
    ensures { IfOk result (λ text. text.items ≡ printed format value) }
{
    let mut out = Vec::new(alloc);
    if value < 0 {
        out.push(b'-')?;
    }
    if format.alternate {
        out.extend_from_slice(b"0x")?;
    }
    add_padded(
        alloc,
        &mut out,
        format.kind,
        format.digits,
        value.unsigned_abs(),
    )?;
    Ok(out)
}

/// Whether the format can print the number.
fn can_print(format: Format, value: i128) -> bool
    ensures { result ≡ can_print format value }
{
    value >= 0 || format.kind == FormatKind::Signed
}

/// How the format prints the number: in its least digits, or as many as the format asks for. There is nothing for a
/// number below zero in a kind other than Signed.
pub fn print_value(alloc: Global, format: Format, value: i128) -> Result<Option<Bytes>, NoMemory>
    ensures exact { IfOk result (λ text. text ≡ prints format value) }
    ensures spelled { IfOk result (λ shown. IfSome shown (λ text. Spells (least format) text value)) }
{
    if !can_print(format, value) {
        return Ok(None);
    }
    match text_of(alloc, format, value) {
        Ok(text) => Ok(Some(Bytes::from_vec(text))),
        Err(_) => Err(NoMemory),
    }
}
