//! The expression of all that a format spells.
ghost use Rattle.std.specs.Prelude.{◌≡◌, ◌≤◌, ◌++◌, ◌&&◌, IfOk, OnOk, map, nat_le};
ghost use Rattle.ere_tree.specs.Bytes.{HasBytes};
ghost use Rattle.ere_tree.specs.Tree.{plain, repeat};
ghost use Rattle.ere_tree.specs.View.{members_of, view};
ghost use Rattle.ere_tree.specs.Grammar.{branch_of};
ghost use Rattle.num_spell.specs.Digits.{is_digit_of};
ghost use Rattle.num_spell.specs.Wild.{MatchesSpelled, digit_parts, digit_set, lead_parts, leading_set, more_digits, sign_parts};
ghost use Rattle.num_spell.specs.Wild as wild;

use ere_tree::{ByteRun, ByteSet, Ere, EreList};
use num_base::{Format, FormatKind};
use std::alloc::{AllocError, Global};
use tt_base::NoMemory;

/// The digits of the kind from the given one on.
fn digits_from(kind: FormatKind, first: u8) -> ByteSet
    requires low { 48 ≤ first }
    requires high { first ≤ 57 }
    ensures { HasBytes result.bits (λ b. is_digit_of kind b && nat_le first b) }
{
    let mut digits = ByteSet::empty();
    digits.insert_range(first, b'9');
    match kind {
        FormatKind::Unsigned => {}
        FormatKind::Signed => {}
        FormatKind::LowerHex => digits.insert_range(b'a', b'f'),
        FormatKind::UpperHex => digits.insert_range(b'A', b'F'),
    }
    digits
}

/// The digits of the kind.
#[tactic(auto, using(crate::proofs::WildLemmas::all_digits))]
fn digit_set(kind: FormatKind) -> ByteSet
    ensures { members_of result.bits ≡ digit_set kind }
{
    digits_from(kind, b'0')
}

/// The digits of the kind but for zero.
#[tactic(auto, using(crate::proofs::WildLemmas::leading_digits))]
fn leading_set(kind: FormatKind) -> ByteSet
    ensures { members_of result.bits ≡ leading_set kind }
{
    digits_from(kind, b'1')
}

fn repeat(alloc: Global, inner: Ere, least: u32, most: Option<u32>) -> Result<Ere, AllocError>
    ensures { IfOk result (λ ere. view ere ≡ repeat (view inner) least most) }
{
    let inner = Box::new(alloc, inner)?;
    Ok(Ere::Repeat { inner, least, most })
}

fn plain(alloc: Global, bytes: &[u8]) -> Result<Ere, AllocError>
    ensures { IfOk result (λ ere. view ere ≡ plain bytes.now) }
{
    Ok(Ere::Plain(ByteRun::from_vec(Vec::from_slice(alloc, bytes)?)))
}

/// Digits in front of those that a format asks for.
fn more_digits(alloc: Global, kind: FormatKind) -> Result<Ere, AllocError>
    ensures { IfOk result (λ ere. view ere ≡ more_digits kind) }
{
    let rest = repeat(alloc, Ere::Set(digit_set(kind)), 0, None)?;
    let mut parts = Vec::new(alloc);
    parts.push(Ere::Set(leading_set(kind)))?;
    parts.push(rest)?;
    let inner = Box::new(alloc, Ere::Cat(EreList::from_vec(parts)))?;
    Ok(Ere::Group { number: 1, inner })
}

fn add_sign(alloc: Global, parts: &mut Vec<Ere>, kind: FormatKind) -> Result<(), AllocError>
    ensures { OnOk result (map view parts.new.items ≡ map view parts.old.items ++ sign_parts kind) }
{
    if kind == FormatKind::Signed {
        let minus = plain(alloc, b"-")?;
        parts.push(repeat(alloc, minus, 0, Some(1))?)?;
    }
    Ok(())
}

fn add_lead(alloc: Global, parts: &mut Vec<Ere>, alternate: bool) -> Result<(), AllocError>
    ensures { OnOk result (map view parts.new.items ≡ map view parts.old.items ++ lead_parts alternate) }
{
    if alternate {
        parts.push(plain(alloc, b"0x")?)?;
    }
    Ok(())
}

fn add_digits(
    alloc: Global,
    parts: &mut Vec<Ere>,
    kind: FormatKind,
    written: u32,
) -> Result<(), AllocError>
    ensures { OnOk result (map view parts.new.items ≡ map view parts.old.items ++ digit_parts kind written) }
{
    let digit = Ere::Set(digit_set(kind));
    if written == 0 {
        parts.push(repeat(alloc, digit, 1, None)?)?;
        return Ok(());
    }
    let more = more_digits(alloc, kind)?;
    parts.push(repeat(alloc, more, 0, Some(1))?)?;
    parts.push(repeat(alloc, digit, written, Some(written))?)?;
    Ok(())
}

/// The concatenation of these parts; one part is that part.
fn joined(mut parts: Vec<Ere>) -> Ere
    ensures { view result ≡ branch_of (map view parts.items) }
{
    if parts.len() > 1 {
        return Ere::Cat(EreList::from_vec(parts));
    }
    match parts.pop() {
        Some(part) => part,
        None => Ere::Empty,
    }
}

fn build(alloc: Global, format: Format) -> Result<Ere, AllocError>
    ensures { IfOk result (λ ere. view ere ≡ wild.wild format) }
{
    let mut parts = Vec::new(alloc);
    add_sign(alloc, &mut parts, format.kind)?;
    add_lead(alloc, &mut parts, format.alternate)?;
    add_digits(alloc, &mut parts, format.kind, format.digits)?;
    Ok(joined(parts))
}

/// The expression of all that a format spells, as `[0-9]+` of `%u`.
pub fn wild(alloc: Global, format: Format) -> Result<Ere, NoMemory>
    ensures exact { IfOk result (λ ere. view ere ≡ wild.wild format) }
    // As a whole it matches just the texts that spell some number.
    ensures matches { IfOk result (λ ere. MatchesSpelled format (view ere)) }
{
    match build(alloc, format) {
        Ok(ere) => Ok(ere),
        Err(_) => Err(NoMemory),
    }
}
