//! The captures beside the slow program, on small expressions and texts.
use ere_captures::{captures, spans};
use ere_slow::slow_hit;
use ere_tree::{Caps, Ere, parse};
use std::alloc::{AllocError, Global};
use std::process::Abort;

/// Pieces of expressions, between blanks.
const PIECES: &str = "a b (a|ab) (b*) (a*)* (a?){2} (a|b)+ $ ((a)|b){1,2} (a*)+ () (b|(a)b?)*";

/// Texts of two letters and newlines, between blanks.
const TEXTS: &str = " a b ab ba aab abab bba aaaa abba a\nb babab aabb bbbb";

/// The captures of a span of the text; none where it is no span, or the expression has references.
fn captured(
    alloc: Global,
    ere: &Ere,
    text: &[u8],
    from: usize,
    to: usize,
) -> Result<Option<Caps>, AllocError> {
    if ere.has_refs() || from > to || to > text.len() {
        return Ok(None);
    }
    if !spans(alloc, ere, text, from, to)? {
        return Ok(None);
    }
    Ok(Some(captures(alloc, ere, text, from, to, 0)?))
}

/// Whether captures are there, and the same as others.
fn are_those(found: &Option<Caps>, due: &Caps) -> bool {
    match found {
        Some(found) => found.as_slice() == due.as_slice(),
        None => false,
    }
}

/// Whether the expression is found in the text. The captures are those of the hit.
fn compare(rt: &impl Abort, alloc: Global, ere: &Ere, text: &str) -> Result<bool, AllocError> {
    let Some(hit) = slow_hit(alloc, ere, text.as_bytes(), 0)? else {
        return Ok(false);
    };
    let found = captured(alloc, ere, text.as_bytes(), hit.from, hit.to)?;
    assert!(rt; are_those(&found, &hit.groups), "of {ere:?} in {text:?}");
    Ok(true)
}

/// The expression that two pieces make. Where it is refused, that counts as want of memory.
fn both(alloc: Global, first: &str, second: &str) -> Result<Ere, AllocError> {
    let both = format!(in alloc; "{first}{second}")?;
    parse(alloc, both.as_bytes(), false).or(Err(AllocError))
}

/// In how many texts the expression is found that two pieces make.
fn count_of(rt: &impl Abort, alloc: Global, first: &str, second: &str) -> Result<u32, AllocError> {
    let ere = both(alloc, first, second)?;
    let mut count: u32 = 0;
    for text in TEXTS.split(' ') {
        if compare(rt, alloc, &ere, text)? {
            count = count.saturating_add(1);
        }
    }
    Ok(count)
}

#[test]
fn captures_are_those_of_the_most_preferred_derivation(rt: HostRuntime) -> Result<(), AllocError> {
    let mut count: u32 = 0;
    for first in PIECES.split(' ') {
        for second in PIECES.split(' ') {
            count = count.saturating_add(count_of(&rt, rt.alloc(), first, second)?);
        }
    }
    assert!(rt; count > 1_000, "{count} hits");
    Ok(())
}
