//! The prefixes of a check file.
ghost use Rattle.std.specs.Prelude.{◌≡◌, ◌++◌, ◌∷◌, [], All, IfOk, OnOk, map};
ghost use Rattle.std.specs.List.{list_all, list_any, slice_split};
ghost use Rattle.std.specs.Str.{bytes_eq};
ghost use Rattle.check_lines.specs.Class.{is_letter};
ghost use Rattle.check_lines.specs.Decision.{is_word};
ghost use Rattle.opt_words.specs.Step.{Stands, texts};
ghost use Rattle.filecheck_words.specs.Prefixes.{check_names, comment_names, first_fault, held_by, held_prefixes, is_comma, is_prefix, is_some, names_beside, or_else, prefix_fault, spelled, spelled_at, spelled_by};
ghost use Rattle.filecheck_words.specs.Fault.{Gives};

use crate::fault::{WordsFail, WordsFault, refuse};
use opt_words::Given;
use std::alloc::{AllocError, Global};
use tt_base::{Bytes, Items, NoMemory};

/// The prefixes that a check file is read by.
#[derive(Drop, Debug)]
pub struct ChosenPrefixes {
    /// Those of directives.
    pub checks: Items<Bytes>,
    /// Those of comments.
    pub comments: Items<Bytes>,
}

/// The prefixes that hold where the words give all this.
pub fn held_prefixes(
    alloc: Global,
    words: &[String],
    all: &[Given],
) -> Result<ChosenPrefixes, WordsFail>
    requires { All (Stands (texts words.now)) all.now }
    ensures { Gives (λ prefixes. prefixes) result (held_prefixes (texts words.now) all.now) }
{
    let checks = spelled(alloc, words, all, 0, 2)?;
    let comments = spelled(alloc, words, all, 2, 3)?;
    let order = spelled(alloc, words, all, 0, 3)?;
    held_by(alloc, checks, comments, order.as_slice())
}

fn held_by(
    alloc: Global,
    checks: Items<Bytes>,
    comments: Items<Bytes>,
    order: &[Bytes],
) -> Result<ChosenPrefixes, WordsFail>
    ensures { Gives (λ prefixes. prefixes) result (held_by checks comments order.now) }
{
    let names = names_beside(alloc, is_some(&checks), is_some(&comments))?;
    match first_fault(alloc, names.as_slice(), order)? {
        Some(fault) => refuse(fault),
        None => Ok(ChosenPrefixes {
            checks: or_else(checks, check_names(alloc)?),
            comments: or_else(comments, comment_names(alloc)?),
        }),
    }
}

fn is_some(prefixes: &Items<Bytes>) -> bool
    ensures { result ≡ is_some prefixes.now }
{
    !prefixes.is_empty()
}

/// Prefixes, or others where there are none.
fn or_else(prefixes: Items<Bytes>, names: Items<Bytes>) -> Items<Bytes>
    ensures { result ≡ or_else prefixes names }
{
    if prefixes.is_empty() { names } else { prefixes }
}

/// The prefixes that the options of the rows from one up to another spell.
fn spelled(
    alloc: Global,
    words: &[String],
    all: &[Given],
    from: usize,
    to: usize,
) -> Result<Items<Bytes>, NoMemory>
    requires { All (Stands (texts words.now)) all.now }
    ensures { IfOk result (λ prefixes. prefixes ≡ spelled from to (texts words.now) all.now) }
{
    let mut prefixes = Items::new(alloc);
    for given in all {
        add_spelled(alloc, &mut prefixes, words, given, from, to)?;
    }
    Ok(prefixes)
}

fn add_spelled(
    alloc: Global,
    prefixes: &mut Items<Bytes>,
    words: &[String],
    given: &Given,
    from: usize,
    to: usize,
) -> Result<(), NoMemory>
    requires { Stands (texts words.now) given.now }
    ensures { OnOk result (prefixes.new ≡ prefixes.old ++ spelled_at from to (texts words.now) given.now) }
{
    if from <= given.row && given.row < to {
        return add_value(alloc, prefixes, given.row, given.value(words));
    }
    Ok(())
}

/// Adds the prefixes that a value spells.
fn add_value(
    alloc: Global,
    prefixes: &mut Items<Bytes>,
    row: usize,
    value: &[u8],
) -> Result<(), NoMemory>
    ensures { OnOk result (prefixes.new ≡ prefixes.old ++ spelled_by row value.now) }
{
    if row == 0 {
        return prefixes.push(Bytes::from_slice(alloc, value)?);
    }
    match parts(alloc, value) {
        Ok(parts) => add_parts(alloc, prefixes, parts.as_slice()),
        Err(_) => Err(NoMemory),
    }
}

fn add_parts(alloc: Global, prefixes: &mut Items<Bytes>, parts: &[&[u8]]) -> Result<(), NoMemory>
    ensures { OnOk result (prefixes.new ≡ prefixes.old ++ map (λ part. part.now) parts.now) }
{
    for part in parts {
        match Bytes::from_slice(alloc, part) {
            Ok(prefix) => match prefixes.push(prefix) {
                Ok(()) => {}
                Err(fail) => return Err(fail),
            },
            Err(fail) => return Err(fail),
        }
    }
    Ok(())
}

/// What stands between the commas of a list.
fn parts(alloc: Global, list: &[u8]) -> Result<Vec<&[u8]>, AllocError>
    ensures { IfOk result (λ parts. map (λ part. part.now) parts.items ≡ slice_split is_comma list.now) }
{
    list.split(|byte| *byte == b',').collect(alloc)
}

/// The check prefixes where none is asked for.
pub fn check_names(alloc: Global) -> Result<Items<Bytes>, NoMemory>
    ensures { IfOk result (λ names. names ≡ check_names) }
{
    let mut names = Items::new(alloc);
    names.push(Bytes::from_slice(alloc, b"CHECK")?)?;
    Ok(names)
}

/// The comment prefixes where none is asked for.
pub fn comment_names(alloc: Global) -> Result<Items<Bytes>, NoMemory>
    ensures { IfOk result (λ names. names ≡ comment_names) }
{
    let mut names = Items::new(alloc);
    names.push(Bytes::from_slice(alloc, b"COM")?)?;
    names.push(Bytes::from_slice(alloc, b"RUN")?)?;
    Ok(names)
}

/// The names that hold beside the prefixes that are spelled.
fn names_beside(
    alloc: Global,
    has_checks: bool,
    has_comments: bool,
) -> Result<Items<Bytes>, NoMemory>
    ensures { IfOk result (λ names. names ≡ names_beside has_checks has_comments) }
{
    let mut names = if has_checks {
        Items::new(alloc)
    } else {
        check_names(alloc)?
    };
    if !has_comments {
        names.push(Bytes::from_slice(alloc, b"COM")?)?;
        names.push(Bytes::from_slice(alloc, b"RUN")?)?;
    }
    Ok(names)
}

/// What is wrong with the first prefix that has a fault. Some names hold before all.
#[tactic(auto, using(crate::proofs::PrefixesLemmas::fault_found, crate::proofs::PrefixesLemmas::fault_passed, crate::proofs::PrefixesLemmas::fault_all, crate::proofs::PrefixesLemmas::fault_none))]
fn first_fault(
    alloc: Global,
    names: &[Bytes],
    order: &[Bytes],
) -> Result<Option<WordsFault>, NoMemory>
    ensures { IfOk result (λ fault. fault ≡ first_fault names.now order.now) }
{
    for (at, prefix) in order.iter().enumerate() {
        if let Some(fault) = prefix_fault(alloc, names, &order[..at], prefix)? {
            return Ok(Some(fault));
        }
    }
    Ok(None)
}

/// What is wrong with a prefix behind names and others.
fn prefix_fault(
    alloc: Global,
    names: &[Bytes],
    before: &[Bytes],
    prefix: &Bytes,
) -> Result<Option<WordsFault>, NoMemory>
    ensures { IfOk result (λ fault. fault ≡ prefix_fault (names.now ++ before.now) prefix.now) }
{
    let bytes = prefix.as_slice();
    if !is_prefix(bytes) {
        return Ok(Some(WordsFault::BadPrefix(Bytes::from_slice(alloc, bytes)?)));
    }
    if is_among(names, before, bytes) {
        return Ok(Some(WordsFault::PrefixTwice(Bytes::from_slice(alloc, bytes)?)));
    }
    Ok(None)
}

/// Whether a prefix stands in one of two lists.
#[tactic(auto, using(crate::proofs::PrefixesLemmas::list_any_append))]
fn is_among(names: &[Bytes], before: &[Bytes], prefix: &[u8]) -> bool
    ensures { result ≡ list_any (λ one. bytes_eq one prefix.now) (names.now ++ before.now) }
{
    holds(names, prefix) || holds(before, prefix)
}

fn holds(prefixes: &[Bytes], prefix: &[u8]) -> bool
    ensures { result ≡ list_any (λ one. bytes_eq one prefix.now) prefixes.now }
{
    prefixes.iter().any(|one| one.as_slice() == prefix)
}

/// Whether a text is spelled as a prefix.
fn is_prefix(text: &[u8]) -> bool
    ensures { result ≡ is_prefix text.now }
{
    match text.split_first() {
        Some((first, rest)) => is_letter(*first) && are_word(rest),
        None => false,
    }
}

fn are_word(text: &[u8]) -> bool
    ensures { result ≡ list_all is_word text.now }
{
    text.iter().all(|byte| is_word(*byte))
}

fn is_word(byte: u8) -> bool
    ensures { result ≡ is_word byte }
{
    is_letter(byte) || matches!(byte, b'0'..=b'9' | b'-' | b'_')
}

fn is_letter(byte: u8) -> bool
    ensures { result ≡ is_letter byte }
{
    matches!(byte, b'a'..=b'z' | b'A'..=b'Z')
}
