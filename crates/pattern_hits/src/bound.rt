//! What a match binds.
ghost use Rattle.std.specs.Prelude.{◌≡◌, ◌≤◌, ℕ, IfOk, List, length, map, Result, Ok, Err};
ghost use Rattle.num_spell.specs.Spelling.{spelled, valued};
ghost use Rattle.pattern_hits.specs.Bound.{all_bound, as_spelled, bound_of, cap_at, in_case, number_bound, number_read, text_at};
ghost use Rattle.pattern_hits.specs.Caps.{LieInText};

use ere_tree::Cap;
use num_base::{Format, FormatKind};
use num_spell::read_value;
use pattern_instance::Gift;
use pattern_vars::{Binding, Bindings};
use std::alloc::Global;
use tt_base::{Bytes, Items, NoMemory, Span};

/// A letter in the case of a kind's digits.
fn in_case(kind: FormatKind, byte: u8) -> u8
    ensures { result ≡ in_case kind byte }
{
    match kind {
        FormatKind::UpperHex => {
            if byte == b'X' || byte == b'x' {
                b'x'
            } else {
                byte.to_ascii_uppercase()
            }
        }
        FormatKind::LowerHex => byte.to_ascii_lowercase(),
        FormatKind::Unsigned => byte.to_ascii_lowercase(),
        FormatKind::Signed => byte.to_ascii_lowercase(),
    }
}

/// A number's text in the case of its format.
fn all_in_case(alloc: Global, kind: FormatKind, text: &[u8]) -> Result<Vec<u8>, NoMemory>
    ensures { IfOk result (λ made. made.items ≡ map (in_case kind) text.now) }
{
    let mut made = Vec::new(alloc);
    for byte in text {
        if made.push(in_case(kind, *byte)).is_err() {
            return Err(NoMemory);
        }
    }
    Ok(made)
}

/// The number that a text spells.
fn spelled(format: Format, text: &[u8]) -> Option<i128>
    ensures { result ≡ valued (spelled format text.now) }
{
    read_value(format, text)
}

/// The number that a text spells, also in the other case where `fold` says so.
fn number_read(
    alloc: Global,
    fold: bool,
    format: Format,
    text: &[u8],
) -> Result<Option<i128>, NoMemory>
    ensures { IfOk result (λ number. number ≡ number_read fold format text.now) }
{
    if !fold {
        return Ok(spelled(format, text));
    }
    let cased = all_in_case(alloc, format.kind, text)?;
    Ok(spelled(format, cased.as_slice()))
}

/// The part that the group behind so many groups holds.
fn cap_at(groups: &[Option<Cap>], group: u32) -> Cap
    ensures { result ≡ cap_at groups.now group }
{
    match groups.get(group as usize) {
        Some(Some(cap)) => *cap,
        Some(None) => Cap { from: 0, to: 0 },
        None => Cap { from: 0, to: 0 },
    }
}

/// The bytes of the part that a group holds.
fn text_at<'a>(text: &'a [u8], groups: &[Option<Cap>], group: u32) -> &'a [u8]
    requires { LieInText text.now groups.now }
    ensures { result.now ≡ text_at text.now groups.now group }
{
    let cap = cap_at(groups, group);
    &text[cap.from..cap.to]
}

/// The number that a part spells, or that part where it can't be read.
fn number_bound(
    alloc: Global,
    name: &Bytes,
    span: Span,
    value: Option<i128>,
) -> Result<Result<Binding, Span>, NoMemory>
    ensures { IfOk result (λ told. told ≡ number_bound name.now span value) }
{
    match value {
        Some(value) => Ok(Ok(Binding::Number {
            name: Bytes::from_slice(alloc, name.as_slice())?,
            value,
        })),
        None => Ok(Err(span)),
    }
}

/// What a gift binds in a match, or the part that can't be read.
fn bound_of(
    alloc: Global,
    gift: &Gift,
    groups: &[Option<Cap>],
    text: &[u8],
    fold: bool,
) -> Result<Result<Binding, Span>, NoMemory>
    requires { LieInText text.now groups.now }
    ensures { IfOk result (λ told. told ≡ bound_of fold text.now groups.now gift.now) }
{
    match gift {
        Gift::Text { name, group } => Ok(Ok(Binding::Text {
            name: Bytes::from_slice(alloc, name.as_slice())?,
            text: Bytes::from_slice(alloc, text_at(text, groups, *group))?,
        })),
        Gift::Number {
            name,
            group,
            format,
        } => {
            let cap = cap_at(groups, *group);
            let value = number_read(alloc, fold, *format, text_at(text, groups, *group))?;
            number_bound(alloc, name, Span::of(cap.from, cap.to - cap.from), value)
        }
        Gift::Given { name, value } => Ok(Ok(Binding::Number {
            name: Bytes::from_slice(alloc, name.as_slice())?,
            value: *value,
        })),
    }
}

/// What all gifts bind in a match, or the part of the first number that can't be read.
pub fn all_bound(
    alloc: Global,
    gifts: &[Gift],
    groups: &[Option<Cap>],
    text: &[u8],
    fold: bool,
) -> Result<Result<Bindings, Span>, NoMemory>
    requires { LieInText text.now groups.now }
    ensures { IfOk result (λ told. told ≡ all_bound fold text.now groups.now gifts.now) }
{
    let mut fresh = Items::new(alloc);
    for gift in gifts {
        match bound_of(alloc, gift, groups, text, fold)? {
            Ok(binding) => fresh.push(binding)?,
            Err(span) => return Ok(Err(span)),
        }
    }
    Ok(Ok(fresh))
}
