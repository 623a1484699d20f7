//! The greatest end of an expression with references from one place.
use crate::finding::{LETTERS, all_spelled};
use crate::rows::{Tells, bytes_of, each_is_told, no_row, numbered};
use ere_reach::{Budget, MAX_STEPS, greatest_end};
use ere_slow::{Limit, derivations};
use ere_tree::{Ere, parse};
use std::alloc::{AllocError, Global};
use std::process::Abort;

/// The greatest end of an expression in a text from a place on, in words.
fn told(alloc: Global, ere: &Ere, text: &[u8], place: usize) -> Result<String, AllocError> {
    if place > text.len() {
        return no_row(alloc);
    }
    match greatest_end(
        alloc,
        ere,
        text,
        place,
        text.len(),
        &mut Budget::new(MAX_STEPS),
    )? {
        Some(end) => format!(in alloc; "{end}"),
        None => String::from_str(alloc, "none"),
    }
}

/// An expression, a text and a place; letters may match in either case.
struct From {
    fold: bool,
}

impl Tells for From {
    fn told(&self, alloc: Global, given: &str) -> Result<String, AllocError> {
        let Some((expression, text, place)) = numbered(given) else {
            return no_row(alloc);
        };
        let text = bytes_of(alloc, text)?;
        match parse(alloc, expression.as_bytes(), self.fold) {
            Ok(ere) => told(alloc, &ere, text.as_slice(), place),
            Err(_) => no_row(alloc),
        }
    }
}

/// An expression, a text, a place, and the greatest end from there.
const ENDS: &str = r"(a)\1 => aab => 0 => 2
(a)\1 => aab => 1 => none
(a*)\1 => aaaaa => 0 => 4
(a*)\1 => aaaaa => 1 => 5
(a|ab)(c|bcd)\1 => abcdab => 0 => 5
(a)|b\1 => ba => 0 => none
((a)|b)*\2 => aba => 0 => 3
(a*)*\1b => aab => 0 => 3
(a*)+\1 => aaa => 0 => 3
(.)(.)\2\1 => abba => 0 => 4
x(.*)y\1 => xabyab => 0 => 6
(a{2})\1{2} => aaaaaaa => 0 => 6
^(a)\1$ => aa~aa~ => 0 => 2
^(a)\1$ => aa~aa~ => 3 => 5
^(a)\1$ => aa~aa~ => 4 => none
(a|b)(\1|b){2}\2 => abab => 0 => none
(a|b)(\1|b){2}\2 => abbb => 0 => 4
((a)*b)*\1\2 => aabaaba => 0 => 7
(a)(b)?\2 => ab => 0 => none
(a)(b)?\2 => abb => 0 => 3";

/// The same where letters match in either case.
const IN_EITHER_CASE: &str = r"(a)\1 => aA => 0 => 2
(ab|A)\1 => aBAb => 0 => 4
(.)\1 => bBb => 1 => 3";

#[test]
fn the_greatest_end_is_told(rt: HostRuntime) -> Result<(), AllocError> {
    each_is_told(&rt, rt.alloc(), ENDS, &From { fold: false })?;
    each_is_told(&rt, rt.alloc(), IN_EITHER_CASE, &From { fold: true })
}

/// The greatest end of all derivations of an expression from a place on.
fn greatest_listed(
    alloc: Global,
    ere: &Ere,
    text: &[u8],
    place: usize,
) -> Result<Option<usize>, AllocError> {
    let mut greatest: Option<usize> = None;
    for one in derivations(alloc, ere, text, place, &mut Limit::new())? {
        greatest = greatest.max(Some(one.to));
    }
    Ok(greatest)
}

/// How many places the expression derives something from. Each has the greatest end that is listed.
fn ends_in(
    rt: &impl Abort,
    alloc: Global,
    pattern: &[u8],
    texts: &[Vec<u8>],
) -> Result<u32, AllocError> {
    let Ok(ere) = parse(alloc, pattern, false) else {
        return Ok(0);
    };
    let mut ends: u32 = 0;
    for text in texts {
        for place in 0..=text.len() {
            let mut budget = Budget::new(MAX_STEPS);
            let text = text.as_slice();
            let end = greatest_end(alloc, &ere, text, place, text.len(), &mut budget)?;
            let listed = greatest_listed(alloc, &ere, text, place)?;
            assert!(rt; end == listed, "{ere:?} in {text:?} from {place}");
            ends = ends.saturating_add(u32::from(end.is_some()));
        }
    }
    Ok(ends)
}

/// Pieces of expressions with groups that are set again, and references to them.
const PIECES: [&str; 9] = [
    "(a)", "(b*)", "(a|ab)", "(", r"|b)", r"\1", r"\2", ")*", "{1,2}",
];

#[test]
fn small_expressions_end_where_the_list_has_their_greatest_end(
    rt: HostRuntime,
) -> Result<(), AllocError> {
    let texts = all_spelled(rt.alloc(), &LETTERS, 2)?;
    let mut ends: u32 = 0;
    for pattern in all_spelled(rt.alloc(), &PIECES, 4)? {
        let found = ends_in(&rt, rt.alloc(), pattern.as_slice(), texts.as_slice())?;
        ends = ends.saturating_add(found);
    }
    assert!(rt; ends > 5_000, "{ends} ends");
    Ok(())
}
