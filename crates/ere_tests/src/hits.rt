//! What a search finds, and how many steps it takes.
ghost use Rattle.std.specs.Prelude.{◌≡◌, ◌<◌, ◌≤◌, length};

use crate::rows::{Tells, bytes_of, each_is_told, no_row, numbered};
use crate::shown::ends_of;
use ere_auto::Steps;
use ere_match::Search;
use ere_tree::{Cap, parse};
use std::alloc::{AllocError, Global};
use std::marker::Brand;
use std::sync::ledger::{Blank, Ledger};

/// The spans that one search finds twice in the slice. Nothing of an expression that is refused or has references, or
/// behind the text.
fn searched<L: Ledger>(
    alloc: Global,
    pattern: &[u8],
    text: &[u8],
    from: usize,
    blank: Blank,
) -> Option<(Option<Cap>, Option<Cap>)>
    requires name { blank.name ≡ L.name }
    requires parts { blank.parts ≡ L.parts }
    requires some_part { 0 < blank.parts }
{
    let mut steps = Steps::<L>::new(blank);
    let ere = parse(alloc, pattern, false).ok()?;
    if ere.has_refs() || from > text.len() {
        return None;
    }
    let Ok(mut search) = Search::new(alloc, &ere) else {
        return None;
    };
    let first = search.span(&ere, text, from, &mut steps);
    let second = search.span(&ere, text, from, &mut steps);
    Some((first, second))
}

fn spans(
    alloc: Global,
    pattern: &[u8],
    text: &[u8],
    from: usize,
) -> Option<(Option<Cap>, Option<Cap>)> {
    searched::<Brand>(alloc, pattern, text, from, Blank::new(1))
}

/// The span that a search finds, and then finds again.
fn found_twice(
    alloc: Global,
    pattern: &[u8],
    text: &[u8],
    from: usize,
) -> Result<String, AllocError> {
    match spans(alloc, pattern, text, from) {
        Some((first, second)) if first == second => ends_of(alloc, first),
        Some(_) => String::from_str(alloc, "two spans"),
        None => no_row(alloc),
    }
}

/// The span of an expression in a text from a place on, which is found twice.
struct SpansTwice;

impl Tells for SpansTwice {
    fn told(&self, alloc: Global, given: &str) -> Result<String, AllocError> {
        let Some((pattern, text, from)) = numbered(given) else {
            return no_row(alloc);
        };
        let pattern = bytes_of(alloc, pattern)?;
        let text = bytes_of(alloc, text)?;
        found_twice(alloc, pattern.as_slice(), text.as_slice(), from)
    }
}

/// An expression, a text, where the search begins, and the span that is found in the slice from there on.
const SPANS: &str = "b|abc|a => abcd => 0 => 0-3
a*b => aaaaaaaa => 0 => none
^b => ab => 1 => 0-1
needle [0-9]+ => a needle, needle 12. => 0 => 10-19
x(needle)y => needle xneedley => 0 => 7-15
(ab)+c => ababx ababc => 0 => 6-11
[a-z]+ needle => a~bc needle => 0 => 2-11
.* needle => ab needle => 0 => 0-9
needle => needl => 0 => none
a|needle => xa => 0 => 1-2
 => abc => 3 => 0-0
c$ => abc => 1 => 1-2
(needle)*x => x => 0 => 0-1
([0-9a-f]{8}){8}x => 0123456789abcdef => 0 => none
[a-z]+(: )+[0-9]+; => a: 1~b: 2; => 0 => 5-10
[a~]+needle => xa~aneedle => 0 => 1-10
(a|b~)+needle => ab~needle => 0 => 0-9";

#[test]
fn a_kept_search_finds_the_span_again(rt: HostRuntime) -> Result<(), AllocError> {
    each_is_told(&rt, rt.alloc(), SPANS, &SpansTwice)
}
