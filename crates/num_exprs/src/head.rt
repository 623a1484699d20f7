//! What stands before the expression of a numeric block: its format and the name that it defines.
ghost use Rattle.std.specs.Prelude.{◌≡◌, ◌≤◌, ◌<◌, ◌+◌, ◌^◌, IfOk, IfSome, length};
ghost use Rattle.num_exprs.specs.Block.{colon_at, colon_behind, comma_at, comma_behind, digits_at, digits_behind, digits_of};
ghost use Rattle.num_exprs.specs.Block.{equals_at, format_at, format_behind, format_from, kind_at, kind_behind, name_behind, name_from, percent_at};
ghost use Rattle.std.specs.Prelude.{IsSome, drop, ◌==◌};
ghost use Rattle.std.specs.List.{list_any};
ghost use Rattle.num_exprs.specs.Token.{blanks};

use crate::block::PlacedName;
use crate::fault::{NumFault, NumKind};
use crate::names::name_at;
use crate::row::{Row, row_length};
use num_base::{Format, FormatKind};
use num_spell::{begins, behind, number_of};
use std::alloc::Global;
use tt_base::{Bytes, NoMemory};

/// The greatest number of digits that a format asks for.
pub const MAX_DIGITS: u32 = 100;

fn refused(kind: NumKind, at: usize) -> NumFault
    ensures { result ≡ record { at = at; kind = kind } }
{
    NumFault { at, kind }
}

/// How many blanks there are behind so many bytes.
fn blanks_behind(text: &[u8], taken: usize) -> usize
    requires { taken ≤ length text.now }
    ensures exact { result ≡ blanks (drop taken text.now) }
    ensures within { taken + result ≤ length text.now }
{
    row_length(behind(text, taken), Row::Blanks)
}

/// The digits of a format and how many bytes they take with their dot.
fn digits_at(text: &[u8]) -> Option<(u32, usize)>
    ensures exact { result ≡ digits_at text.now }
    ensures within { IfSome result (λ digits. digits.1 ≤ length text.now) }
{
    if !begins(text, b'.') {
        return Some((0, 0));
    }
    let rest = behind(text, 1);
    let count = row_length(rest, Row::Digits);
    match number_of(rest.split_at(count).0, 10) {
        Some(n) => {
            if n >= 1 && n <= u128::from(MAX_DIGITS) {
                Some((n as u32, count + 1))
            } else {
                None
            }
        }
        None => None,
    }
}

/// The kind of a format.
fn kind_at(alternate: bool, text: &[u8]) -> Option<FormatKind>
    ensures exact { result ≡ kind_at alternate text.now }
    ensures some { IsSome result → 0 < length text.now }
{
    if begins(text, b'u') && !alternate {
        Some(FormatKind::Unsigned)
    } else if begins(text, b'd') && !alternate {
        Some(FormatKind::Signed)
    } else if begins(text, b'x') {
        Some(FormatKind::LowerHex)
    } else if begins(text, b'X') {
        Some(FormatKind::UpperHex)
    } else {
        None
    }
}

/// A format and the comma behind it, where so many bytes of it were read.
fn comma_behind(
    format: Format,
    at: usize,
    taken: usize,
    text: &[u8],
) -> Result<(Option<Format>, usize), NumFault>
    requires taken { taken ≤ length text.now }
    requires fits { at + length text.now < 2 ^ 64 }
    ensures exact { result ≡ comma_behind format at taken text.now }
    ensures within { IfOk result (λ found. found.1 ≤ length text.now) }
{
    let count = taken + blanks_behind(text, taken);
    if begins(behind(text, count), b',') {
        Ok((Some(format), count + 1))
    } else {
        Err(refused(NumKind::BadFormat, at + count))
    }
}

fn kind_behind(
    alternate: bool,
    digits: u32,
    at: usize,
    taken: usize,
    text: &[u8],
) -> Result<(Option<Format>, usize), NumFault>
    requires taken { taken ≤ length text.now }
    requires fits { at + length text.now < 2 ^ 64 }
    ensures exact { result ≡ kind_behind alternate digits at taken text.now }
    ensures within { IfOk result (λ found. found.1 ≤ length text.now) }
{
    match kind_at(alternate, behind(text, taken)) {
        Some(kind) => {
            let format = Format {
                kind,
                alternate,
                digits,
            };
            comma_behind(format, at, taken + 1, text)
        }
        None => Err(refused(NumKind::BadFormat, at + taken)),
    }
}

/// The format behind a `%`, whose bytes begin at an offset.
fn format_from(at: usize, text: &[u8]) -> Result<(Option<Format>, usize), NumFault>
    requires { at + length text.now < 2 ^ 63 }
    ensures exact { result ≡ format_from at text.now }
    ensures within { IfOk result (λ found. found.1 ≤ length text.now) }
{
    let alternate = begins(text, b'#');
    let taken = if alternate { 1 } else { 0 };
    match digits_at(behind(text, taken)) {
        Some((digits, count)) => kind_behind(alternate, digits, at, taken + count, text),
        None => Err(refused(NumKind::BadFormat, at + taken + 1)),
    }
}

/// The format behind a `%` that stands at an offset.
fn percent_at(at: usize, text: &[u8]) -> Result<(Option<Format>, usize), NumFault>
    requires at { at < length text.now }
    requires fits { length text.now < 2 ^ 63 }
    ensures exact { result ≡ percent_at at text.now }
    ensures within { IfOk result (λ found. found.1 ≤ length text.now) }
{
    let begin = at + 1 + blanks_behind(text, at + 1);
    match format_from(begin, behind(text, begin)) {
        Ok((format, count)) => Ok((format, begin + count)),
        Err(fault) => Err(fault),
    }
}

/// The format at the front of a block, if there is one, and how many bytes it takes.
pub(crate) fn format_at(text: &[u8]) -> Result<(Option<Format>, usize), NumFault>
    requires { length text.now < 2 ^ 63 }
    ensures exact { result ≡ format_at text.now }
    ensures within { IfOk result (λ found. found.1 ≤ length text.now) }
{
    let blanks = row_length(text, Row::Blanks);
    if begins(behind(text, blanks), b'%') {
        percent_at(blanks, text)
    } else {
        Ok((None, 0))
    }
}

/// What was found of a name that is defined, and how many bytes it takes; or its fault.
type NameFound = Result<(Option<PlacedName>, usize), NumFault>;

/// The colon behind a name of this length that begins behind so many bytes.
fn colon_behind(
    alloc: Global,
    at: usize,
    begin: usize,
    long: usize,
    text: &[u8],
) -> Result<NameFound, NoMemory>
    requires within { begin + long ≤ length text.now }
    requires fits { at + length text.now < 2 ^ 64 }
    ensures exact { IfOk result (λ found. found ≡ colon_behind at begin long text.now) }
    ensures within { IfOk result (λ found. IfOk found (λ name. name.1 ≤ length text.now)) }
{
    let count = begin + long + blanks_behind(text, begin + long);
    if !begins(behind(text, count), b':') {
        return Ok(Err(refused(NumKind::BadName, at + count)));
    }
    match Bytes::from_slice(alloc, behind(text, begin).split_at(long).0) {
        Ok(name) => Ok(Ok((
            Some(PlacedName {
                at: at + begin,
                name,
            }),
            count + 1,
        ))),
        Err(_) => Err(NoMemory),
    }
}

fn name_behind(alloc: Global, at: usize, begin: usize, text: &[u8]) -> Result<NameFound, NoMemory>
    requires within { begin ≤ length text.now }
    requires fits { at + length text.now < 2 ^ 64 }
    ensures exact { IfOk result (λ found. found ≡ name_behind at begin text.now) }
    ensures within { IfOk result (λ found. IfOk found (λ name. name.1 ≤ length text.now)) }
{
    match name_at(behind(text, begin)) {
        Ok(long) => colon_behind(alloc, at, begin, long, text),
        Err(stop) => Ok(Err(refused(NumKind::BadName, at + begin + stop))),
    }
}

/// Whether there is a colon.
fn has_colon(text: &[u8]) -> bool
    ensures { result ≡ list_any (λ b. b == 58) text.now }
{
    text.iter().any(|byte| *byte == b':')
}

/// The name that is defined, at an offset, and how many bytes it takes with its colon.
pub(crate) fn name_from(alloc: Global, at: usize, text: &[u8]) -> Result<NameFound, NoMemory>
    requires { at + length text.now < 2 ^ 64 }
    ensures exact { IfOk result (λ found. found ≡ name_from at text.now) }
    ensures within { IfOk result (λ found. IfOk found (λ name. name.1 ≤ length text.now)) }
{
    if has_colon(text) {
        name_behind(alloc, at, row_length(text, Row::Blanks), text)
    } else {
        Ok(Ok((None, 0)))
    }
}

/// How many bytes there are up to and with an `==`, or none where there is none.
pub(crate) fn equals_at(text: &[u8]) -> usize
    ensures exact { result ≡ equals_at text.now }
    ensures within { result ≤ length text.now }
{
    let blanks = row_length(text, Row::Blanks);
    if behind(text, blanks).starts_with(b"==") {
        blanks + 2
    } else {
        0
    }
}
