//! The patterns of `--implicit-check-not`.
ghost use Rattle.std.specs.Prelude.{◌≡◌, ◌≤◌, IfOk, length, map};
ghost use Rattle.std.specs.List.{find, list_all, list_any, prefix_len, suffix_len};
ghost use Rattle.std.specs.Option.{option_map};
ghost use Rattle.check_lines.specs.Canonical.{is_blank};
ghost use Rattle.check_lines.specs.Class.{has};
ghost use Rattle.check_lines.specs.Suffix.{trimmed};
ghost use Rattle.check_lines.specs.declared.class.Class.TheVariants.{Blank};
ghost use Rattle.filecheck_words.specs.Fault.{Gives};
ghost use Rattle.filecheck_words.specs.Implicit.{is_bad, is_newline, pattern_of, patterns_of};

use crate::fault::{WordsFail, WordsFault, refuse};
use check_lines::canon;
use std::alloc::Global;
use tt_base::{Bytes, Items, NoMemory};

fn is_blank(byte: u8) -> bool
    ensures { result ≡ is_blank byte }
{
    byte == b' ' || byte == b'\t'
}

fn are_blank(text: &[u8]) -> bool
    ensures { result ≡ list_all is_blank text.now }
{
    text.iter().all(|byte| is_blank(*byte))
}

fn has_newline(text: &[u8]) -> bool
    ensures { result ≡ list_any is_newline text.now }
{
    text.iter().any(|byte| *byte == b'\n')
}

/// Whether a value is no pattern.
fn is_bad(value: &[u8]) -> bool
    ensures { result ≡ is_bad value.now }
{
    are_blank(value) || has_newline(value)
}

/// The first value that is no pattern.
fn first_bad(values: &[Bytes]) -> Option<&Bytes>
    ensures { option_map (λ value. value.now) result ≡ find is_bad values.now }
{
    values.iter().find(|value| is_bad(value.as_slice()))
}

/// How many blanks a text begins with.
fn blanks_before(text: &[u8]) -> usize
    ensures value { result ≡ prefix_len (has Blank) text.now }
    ensures within { result ≤ length text.now }
{
    for (at, &byte) in text.iter().enumerate() {
        if !is_blank(byte) {
            return at;
        }
    }
    text.len()
}

/// How many blanks a text ends with.
fn blanks_behind(text: &[u8]) -> usize
    ensures value { result ≡ suffix_len (has Blank) text.now }
    ensures within { result ≤ length text.now }
{
    for at in (0..text.len()).rev() {
        if !is_blank(text[at]) {
            return text.len() - 1 - at;
        }
    }
    text.len()
}

/// A text without the blanks at both ends.
fn trimmed(text: &[u8]) -> &[u8]
    ensures { result.now ≡ trimmed text.now }
{
    let rest = &text[blanks_before(text)..];
    &rest[..rest.len() - blanks_behind(rest)]
}

/// The patterns of values, in order.
pub(crate) fn patterns_of(
    alloc: Global,
    values: &[Bytes],
    strict: bool,
) -> Result<Items<Bytes>, WordsFail>
    ensures { Gives (λ patterns. patterns) result (patterns_of strict values.now) }
{
    if let Some(bad) = first_bad(values) {
        return refuse(WordsFault::BadImplicit(Bytes::from_slice(alloc, bad.as_slice())?));
    }
    Ok(all_patterns(alloc, values, strict)?)
}

fn all_patterns(alloc: Global, values: &[Bytes], strict: bool) -> Result<Items<Bytes>, NoMemory>
    ensures { IfOk result (λ patterns. patterns ≡ map (pattern_of strict) values.now) }
{
    let mut patterns = Items::new(alloc);
    for value in values {
        patterns.push(pattern_of(alloc, value.as_slice(), strict)?)?;
    }
    Ok(patterns)
}

/// The pattern of a value.
fn pattern_of(alloc: Global, value: &[u8], strict: bool) -> Result<Bytes, NoMemory>
    ensures { IfOk result (λ pattern. pattern ≡ pattern_of strict value.now) }
{
    let text = canon(alloc, value, strict)?;
    Bytes::from_slice(alloc, trimmed(text.as_slice()))
}
