//! Hits with their captures: rows by hand, and small expressions beside the list of all derivations.
ghost use Rattle.std.specs.Prelude.{◌≡◌, ◌<◌, ◌≤◌, length};

use crate::rows::{Tells, bytes_of, each_is_told, is_text, no_row, numbered, three};
use crate::shown::{are_same, in_words};
use ere_auto::Steps;
use ere_match::find;
use ere_slow::slow_hit;
use ere_tree::{Ere, Hit, parse};
use std::alloc::{AllocError, Global};
use std::marker::Brand;
use std::process::Abort;
use std::sync::ledger::{Blank, Ledger};
use tt_base::NoMemory;

fn found_by<L: Ledger>(
    alloc: Global,
    ere: &Ere,
    text: &[u8],
    from: usize,
    blank: Blank,
) -> Result<Option<Hit>, NoMemory>
    requires name { blank.name ≡ L.name }
    requires parts { blank.parts ≡ L.parts }
    requires some_part { 0 < blank.parts }
    requires inside { from ≤ length text.now }
{
    let mut steps = Steps::<L>::new(blank);
    find(alloc, ere, text, from, &mut steps)
}

/// The hit in the text from `from` on. A place behind the text counts as want of memory.
pub(crate) fn found(
    alloc: Global,
    ere: &Ere,
    text: &[u8],
    from: usize,
) -> Result<Option<Hit>, AllocError> {
    if from > text.len() {
        return Err(AllocError);
    }
    found_by::<Brand>(alloc, ere, text, from, Blank::new(1)).or(Err(AllocError))
}

/// The hit of an expression in a text, in words.
pub(crate) fn told_of(alloc: Global, ere: &Ere, text: &[u8]) -> Result<String, AllocError> {
    let hit = found(alloc, ere, text, 0)?;
    in_words(alloc, &hit)
}

/// What is found in the text from a place on, in words.
pub(crate) fn told(
    alloc: Global,
    pattern: &str,
    text: &[u8],
    from: usize,
) -> Result<String, AllocError> {
    let Ok(ere) = parse(alloc, pattern.as_bytes(), false) else {
        return String::from_str(alloc, "refused");
    };
    let hit = found(alloc, &ere, text, from)?;
    in_words(alloc, &hit)
}

/// The hit of an expression in a text from a place on.
struct Hits;

impl Tells for Hits {
    fn told(&self, alloc: Global, given: &str) -> Result<String, AllocError> {
        let Some((pattern, text, from)) = numbered(given) else {
            return no_row(alloc);
        };
        let text = bytes_of(alloc, text)?;
        told(alloc, pattern, text.as_slice(), from)
    }
}

/// An expression, a text, where the search begins, and the hit with its groups.
const HITS: &str = r"(a|ab)(c|bcd)(d*) => abcd => 0 => 0-4 0-2 2-3 3-4
(a?){3} => a => 0 => 0-1 1-1
(a*)* =>  => 0 => 0-0 none
(a*)+ =>  => 0 => 0-0 0-0
$ => a~b => 0 => 1-1
^b => ab => 1 => 1-2
b|abc|a => abcd => 0 => 0-3
(b)+ => xabb => 2 => 2-4 3-4
a*b => aaaaaaaa => 0 => none
x((a*)(a*))b\3 => xaabaa => 0 => 0-6 1-3 1-1 1-3
(a)|(b)\1 => b => 0 => none
(a|ab)(b*)\2c => abbc => 0 => 0-4 0-1 1-2
(a+)\1c => aabaac => 0 => 3-6 3-4
(a|b)\1 => ab => 0 => none";

#[test]
fn groups_hold_what_the_preferred_way_sets(rt: HostRuntime) -> Result<(), AllocError> {
    each_is_told(&rt, rt.alloc(), HITS, &Hits)
}

/// The same of expressions that have to be tried behind the first place at which one without references would match: in
/// a line, at a line's start, at the start of a line that begins there, and in a slice of the text.
const BEHIND: &str = r"([ab])\1 => abb => 0 => 1-3 1-2
^([ab])\1 => ab~bb => 0 => 3-5 3-4
^((a*)b)?\2$ => ~aba => 0 => 1-4 1-3 1-2
([ab])\1 => xaabb => 2 => 3-5 3-4";

#[test]
fn a_reference_may_match_behind_the_first_place(rt: HostRuntime) -> Result<(), AllocError> {
    each_is_told(&rt, rt.alloc(), BEHIND, &Hits)
}

/// Whether an expression is found nowhere in so many of a letter between two texts.
fn is_nowhere(alloc: Global, row: &str, count: usize) -> Result<bool, AllocError> {
    let Some((pattern, front, end)) = three(row) else {
        return Ok(false);
    };
    is_text(told_behind(alloc, pattern, front, count, end), "none")
}

/// So many `a` between two texts.
pub(crate) fn surrounded(
    alloc: Global,
    front: &str,
    count: usize,
    end: &str,
) -> Result<Vec<u8>, AllocError> {
    let mut text = Vec::from_slice(alloc, front.as_bytes())?;
    for _ in 0..count {
        text.push(b'a')?;
    }
    text.extend_from_slice(end.as_bytes())?;
    Ok(text)
}

/// What is found in so many `a` between two texts, in words.
pub(crate) fn told_behind(
    alloc: Global,
    pattern: &str,
    front: &str,
    count: usize,
    end: &str,
) -> Result<String, AllocError> {
    let text = surrounded(alloc, front, count, end)?;
    told(alloc, pattern, text.as_slice(), 0)
}

#[test]
fn what_the_filter_shuts_out_is_told_at_once(rt: HostRuntime) -> Result<(), AllocError> {
    assert!(rt; is_nowhere(rt.alloc(), r"(x)(aa?)+\1b => x => b", 42)?);
    assert!(rt; is_nowhere(rt.alloc(), r"(a+)\1b => x =>  b", 2_000)?);
    Ok(())
}

/// What expressions are spelled of.
const TOKENS: [&str; 15] = [
    "a", "b", ".", "$", "(a)", "(b*)", "(a|ab)", "(a|b?)", "(", "){2}", ")*", ")+", "|", "*", "?",
];

pub(crate) const LETTERS: [&str; 4] = ["a", "b", "ab", "\n"];

/// The text of so many pieces that a number spells, its last digit first. No pieces count as want of memory.
fn spelled(
    alloc: Global,
    pieces: &[&str],
    number: usize,
    length: u32,
) -> Result<Vec<u8>, AllocError> {
    let mut bytes = Vec::new(alloc);
    let mut left = number;
    for _ in 0..length {
        let Some(piece) = pieces.get(left.checked_rem(pieces.len()).unwrap_or(0)) else {
            return Err(AllocError);
        };
        bytes.extend_from_slice(piece.as_bytes())?;
        left = left.checked_div(pieces.len()).unwrap_or(0);
    }
    Ok(bytes)
}

/// All texts of up to so many pieces.
pub(crate) fn all_spelled(
    alloc: Global,
    pieces: &[&str],
    most: u32,
) -> Result<Vec<Vec<u8>>, AllocError> {
    let mut all = Vec::new(alloc);
    for length in 0..=most {
        for number in 0..pieces.len().saturating_pow(length) {
            all.push(spelled(alloc, pieces, number, length)?)?;
        }
    }
    Ok(all)
}

/// Whether the expression is found in the text. The hit and its groups are those of the list.
fn agree(rt: &impl Abort, alloc: Global, ere: &Ere, text: &[u8]) -> Result<bool, AllocError> {
    let hit = found(alloc, ere, text, 0)?;
    let listed = slow_hit(alloc, ere, text, 0)?;
    assert!(rt; are_same(&hit, &listed), "{ere:?} in {text:?}");
    Ok(hit.is_some())
}

/// In how many of the texts the expression is found; in none where it is refused.
fn hits_in(
    rt: &impl Abort,
    alloc: Global,
    pattern: &[u8],
    texts: &[Vec<u8>],
) -> Result<u32, AllocError> {
    let Ok(ere) = parse(alloc, pattern, false) else {
        return Ok(0);
    };
    let mut hits: u32 = 0;
    for text in texts {
        if agree(rt, alloc, &ere, text.as_slice())? {
            hits = hits.saturating_add(1);
        }
    }
    Ok(hits)
}

#[test]
fn small_expressions_are_found_as_the_list_has_them(rt: HostRuntime) -> Result<(), AllocError> {
    let texts = all_spelled(rt.alloc(), &LETTERS, 2)?;
    let mut hits: u32 = 0;
    for pattern in all_spelled(rt.alloc(), &TOKENS, 3)? {
        let found = hits_in(&rt, rt.alloc(), pattern.as_slice(), texts.as_slice())?;
        hits = hits.saturating_add(found);
    }
    assert!(rt; hits > 5_000, "{hits} hits");
    Ok(())
}

/// Whether a text of so many of a letter has this hit, in words.
pub(crate) fn is_found_among(
    alloc: Global,
    ere: &Ere,
    letter: u8,
    count: usize,
    due: &str,
) -> Result<bool, AllocError> {
    let letters = vec![in alloc; letter; count]?;
    is_text(told_of(alloc, ere, letters.as_slice()), due)
}

/// So many alternatives of one letter.
fn alternatives(alloc: Global, count: u32) -> Result<Ere, AllocError> {
    let mut pattern = spelled(alloc, &["a|"], 0, count.saturating_sub(1))?;
    pattern.push(b'a')?;
    parse(alloc, pattern.as_slice(), false).or(Err(AllocError))
}

#[test]
fn of_sixty_thousand_alternatives_one_is_found_or_none(rt: HostRuntime) -> Result<(), AllocError> {
    let ere = alternatives(rt.alloc(), 60_000)?;
    assert!(rt; is_found_among(rt.alloc(), &ere, b'a', 65_536, "0-1")?);
    assert!(rt; is_found_among(rt.alloc(), &ere, b'b', 1_048_576, "none")?);
    Ok(())
}
