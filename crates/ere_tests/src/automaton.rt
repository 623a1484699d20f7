//! What the automaton finds, and how far it is shown the slice.
ghost use Rattle.std.specs.Prelude.{◌≡◌, ◌<◌};

use crate::rows::{Tells, bytes_of, each_is_told, four, no_row, numbered};
use crate::shown::ends_of;
use ere_auto::{Auto, Steps};
use ere_tree::{Cap, parse};
use std::alloc::{AllocError, Global};
use std::marker::Brand;
use std::sync::ledger::{Blank, Ledger};

/// The span that is found, and how many bytes and ends were shown for it. Nothing of an expression that is refused or
/// has references.
fn shown<L: Ledger>(
    alloc: Global,
    pattern: &[u8],
    text: &[u8],
    begin: usize,
    blank: Blank,
) -> Option<(Option<Cap>, usize)>
    requires name { blank.name ≡ L.name }
    requires parts { blank.parts ≡ L.parts }
    requires some_part { 0 < blank.parts }
{
    let mut steps = Steps::<L>::new(blank);
    let ere = parse(alloc, pattern, false).ok()?;
    if ere.has_refs() {
        return None;
    }
    let mut automaton = Auto::build(alloc, &ere).ok()?;
    automaton.begin_at(begin);
    for (index, byte) in text.iter().enumerate() {
        if !automaton.advance(Some(*byte), &mut steps) {
            return Some((automaton.span(), index + 1));
        }
    }
    let _over = automaton.advance(None, &mut steps);
    Some((automaton.span(), text.len() + 1))
}

fn search(alloc: Global, pattern: &str, text: &[u8], begin: usize) -> Option<(Option<Cap>, usize)> {
    shown::<Brand>(alloc, pattern.as_bytes(), text, begin, Blank::new(1))
}

/// The span of an expression in a text from a place on.
struct Spans;

impl Tells for Spans {
    fn told(&self, alloc: Global, given: &str) -> Result<String, AllocError> {
        let Some((pattern, text, begin)) = numbered(given) else {
            return no_row(alloc);
        };
        let text = bytes_of(alloc, text)?;
        match search(alloc, pattern, text.as_slice(), begin) {
            Some((span, _)) => ends_of(alloc, span),
            None => no_row(alloc),
        }
    }
}

/// An expression, a text, where a match may begin, and the span that is found.
const SPANS: &str = "b|abc|a => abcd => 0 => 0-3
abc|b => abc => 0 => 0-3
abcd|b => abce => 0 => 1-2
a*b => aaaa => 0 => none
 => x => 0 => 0-0
x* => ax => 0 => 0-0
x+ => axxa => 0 => 1-3
^b => a~b => 0 => 2-3
^b => ab => 0 => none
a$ => a~b => 0 => 0-1
a$ => ab~ca => 0 => 4-5
^$ =>  => 0 => 0-0
^$ => a~ => 0 => 2-2
(a|ab)(c|bcd) => abcd => 0 => 0-4
[0-9]{2,3} => 1 12345 => 0 => 2-5
(a{2}){2} => aaaaa => 0 => 0-4
a{0}b => ab => 0 => 1-2
(a*)*b => aaab => 0 => 0-4
[^a] => a~b => 0 => 2-3";

#[test]
fn the_leftmost_longest_span_is_found(rt: HostRuntime) -> Result<(), AllocError> {
    each_is_told(&rt, rt.alloc(), SPANS, &Spans)
}

/// An expression, a text, where a match may begin, and how many bytes and ends are shown.
const SHOWN: &str = "a*b => aaaaaaaa => 0 => 9
b|abc|a => abcd => 0 => 4
b => abab => 0 => 3
b => abab => 2 => 5
b => ab => 7 => 3
 => ab => 0 => 1";

/// Whether so much is shown as a row says.
fn is_shown(alloc: Global, row: &str) -> bool {
    let Some((pattern, text, begin, due)) = four(row) else {
        return false;
    };
    match search(alloc, pattern, text.as_bytes(), begin) {
        Some((_, count)) => due.parse::<usize>() == Ok(count),
        None => false,
    }
}

#[test]
fn no_more_is_shown_once_the_span_is_known(rt: HostRuntime) {
    for row in SHOWN.lines() {
        assert!(rt; is_shown(rt.alloc(), row), "{row}");
    }
}

const STARTS: &str = "b+ => bbab => 0 => 0-2
b+ => bbab => 1 => 1-2
b+ => bbab => 2 => 3-4
^b => a~b => 2 => 2-3
b => ab => 3 => none";

#[test]
fn starts_before_the_place_do_not_count(rt: HostRuntime) -> Result<(), AllocError> {
    each_is_told(&rt, rt.alloc(), STARTS, &Spans)
}
