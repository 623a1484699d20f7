//! What is spelled behind a check prefix.
ghost use Rattle.std.specs.Prelude.{◌≡◌, ◌+◌, ◌-◌, ◌≤◌, ◌^◌, ℕ, IfSome, length, min};
ghost use Rattle.check_lines.specs.Kind.{is_not, suffix_of};
ghost use Rattle.check_lines.specs.Suffix.{LiesWithin, amount, closed, closed_or_combined, combined, counted, counted_by, modifier, named_suffix, number_of, suffix, trimmed};

use crate::class::{Class, back_length, front_length};
use crate::fault::LineFault;
use crate::kind::{Kind, is_other, named, row_of};

/// A suffix with its colon: `-NEXT:` or `-COUNT-3{LITERAL}:`.
#[derive(Clone, Copy, Debug, PartialEq, Eq)]
pub struct Spelled {
    pub kind: Kind,
    pub literal: bool,
    /// How many bytes it has.
    pub count: usize,
}

/// What is spelled behind a check prefix: a suffix, or a mistake that is refused.
#[derive(Clone, Copy, Debug, PartialEq, Eq)]
pub enum Spelling {
    Good(Spelled),
    Bad(LineFault),
}

/// What is spelled behind a check prefix, if anything is.
pub fn suffix(text: &[u8]) -> Option<Spelling>
    requires { length text.now ≤ 2 ^ 30 }
    ensures value { result ≡ suffix text.now }
    ensures lies { LiesWithin (length text.now) result }
{
    if !text.starts_with(b"-") {
        closed(Kind::Plain, 0, text)
    } else if text.starts_with(b"-COUNT-") {
        counted(&text[7..])
    } else {
        named_suffix(named(text), text)
    }
}

fn named_suffix(kind: Option<Kind>, text: &[u8]) -> Option<Spelling>
    requires short { length text.now ≤ 2 ^ 30 }
    requires named { IfSome kind (λ kind. length (suffix_of kind) ≤ length text.now) }
    ensures value { result ≡ named_suffix kind text.now }
    ensures lies { LiesWithin (length text.now) result }
{
    match kind {
        None => closed(Kind::Plain, 0, text),
        Some(kind) => {
            let length = row_of(kind).suffix.len();
            let rest = &text[length..];
            closed_or_combined(kind, rest, closed(kind, length, rest))
        }
    }
}

/// What closes a kind, or else makes it the first of two.
fn closed_or_combined(kind: Kind, rest: &[u8], spelling: Option<Spelling>) -> Option<Spelling>
    ensures value { result ≡ closed_or_combined kind rest.now spelling }
    ensures lies { (most : ℕ) → LiesWithin most spelling → LiesWithin most result }
{
    match spelling {
        Some(spelling) => Some(spelling),
        None => combined(kind, named(rest), rest),
    }
}

/// A kind and another behind it, and a colon.
fn combined(first: Kind, second: Option<Kind>, rest: &[u8]) -> Option<Spelling>
    requires { IfSome second (λ second. length (suffix_of second) ≤ length rest.now) }
    ensures value { result ≡ combined first second rest.now }
    ensures lies { (most : ℕ) → LiesWithin most result }
{
    match second {
        None => None,
        Some(second) => {
            let apart = (is_not(first) && is_other(second)) || (is_other(first) && is_not(second));
            if apart && rest[row_of(second).suffix.len()..].starts_with(b":") {
                Some(Spelling::Bad(LineFault::NotCombination))
            } else {
                None
            }
        }
    }
}

fn is_not(kind: Kind) -> bool
    ensures { result ≡ is_not kind }
{
    row_of(kind).demand.role.is_excluded()
}

/// What closes a suffix of a kind with `before` bytes: a colon, or a modifier and a colon.
fn closed(kind: Kind, before: usize, rest: &[u8]) -> Option<Spelling>
    requires { before + length rest.now ≤ 2 ^ 30 }
    ensures value { result ≡ closed kind before rest.now }
    ensures lies { LiesWithin (before + length rest.now) result }
{
    if rest.starts_with(b":") {
        Some(Spelling::Good(Spelled {
            kind,
            literal: false,
            count: before + 1,
        }))
    } else if rest.starts_with(b"{") {
        modifier(kind, before, &rest[1..])
    } else {
        None
    }
}

/// The modifier behind its `{`, of a suffix with `before` bytes before the `{`.
fn modifier(kind: Kind, before: usize, text: &[u8]) -> Option<Spelling>
    requires { before + length text.now ≤ 2 ^ 30 }
    ensures value { result ≡ modifier kind before text.now }
    ensures lies { LiesWithin (before + 1 + length text.now) result }
{
    let inner = front_length(Class::Modifier, text);
    if !text[inner..].starts_with(b"}:") {
        return None;
    }
    if trimmed(&text[..inner]) == b"LITERAL".as_slice() {
        return Some(Spelling::Good(Spelled {
            kind,
            literal: true,
            count: before + inner + 3,
        }));
    }
    Some(Spelling::Bad(LineFault::BadModifier))
}

/// A text without the blanks at both ends.
fn trimmed(text: &[u8]) -> &[u8]
    ensures { result.now ≡ trimmed text.now }
{
    let rest = &text[front_length(Class::Blank, text)..];
    &rest[..rest.len() - back_length(Class::Blank, rest)]
}

/// A COUNT behind its `-COUNT-`.
fn counted(text: &[u8]) -> Option<Spelling>
    requires { length text.now ≤ 2 ^ 30 - 7 }
    ensures value { result ≡ counted text.now }
    ensures lies { LiesWithin (7 + length text.now) result }
{
    let digits = front_length(Class::Digit, text);
    let rest = &text[digits..];
    counted_by(amount(&text[..digits]), 7 + digits, rest)
}

fn counted_by(amount: Option<u32>, before: usize, rest: &[u8]) -> Option<Spelling>
    requires { before + length rest.now ≤ 2 ^ 30 }
    ensures value { result ≡ counted_by amount before rest.now }
    ensures lies { LiesWithin (before + length rest.now) result }
{
    match amount {
        None => Some(Spelling::Bad(LineFault::BadCount)),
        Some(n) => {
            if rest.starts_with(b":") || rest.starts_with(b"{") {
                closed(Kind::Count(n), before, rest)
            } else {
                Some(Spelling::Bad(LineFault::BadCount))
            }
        }
    }
}

/// How often a COUNT asks for a match, if that is 1 to 100,000 times. Numbers past a million count as one.
fn amount(digits: &[u8]) -> Option<u32>
    ensures { result ≡ amount digits.now }
{
    let n = number(digits);
    if 1 <= n && n <= 100_000 {
        Some(n)
    } else {
        None
    }
}

/// The number that digits spell, or a million where it is more.
fn number(digits: &[u8]) -> u32
    ensures { result ≡ min (number_of digits.now) 1000000 }
{
    let mut value = 0;
    for &digit in digits {
        value = (value * 10 + digit.saturating_sub(b'0') as u32).min(1_000_000);
    }
    value
}
