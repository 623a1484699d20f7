//! Where hits lie, of whose groups nothing is asked.
ghost use Rattle.std.specs.Prelude.{◌≡◌, ◌<◌, ◌≤◌, length};

use crate::finding::surrounded;
use crate::rows::{Tells, bytes_of, each_is_told, four, no_row, numbered};
use ere_auto::Steps;
use ere_match::hit_span;
use ere_tree::{Cap, Ere, parse};
use std::alloc::{AllocError, Global};
use std::marker::Brand;
use std::process::Abort;
use std::sync::ledger::{Blank, Ledger};
use tt_base::NoMemory;

fn span_by<L: Ledger>(
    alloc: Global,
    ere: &Ere,
    text: &[u8],
    from: usize,
    blank: Blank,
) -> Result<Option<Cap>, NoMemory>
    requires name { blank.name ≡ L.name }
    requires parts { blank.parts ≡ L.parts }
    requires some_part { 0 < blank.parts }
    requires inside { from ≤ length text.now }
{
    let mut steps = Steps::<L>::new(blank);
    hit_span(alloc, ere, text, from, &mut steps)
}

/// Where the hit lies in the text from a place on, in words.
fn told(alloc: Global, pattern: &str, text: &[u8], from: usize) -> Result<String, AllocError> {
    let Ok(ere) = parse(alloc, pattern.as_bytes(), false) else {
        return String::from_str(alloc, "refused");
    };
    if from > text.len() {
        return no_row(alloc);
    }
    match span_by::<Brand>(alloc, &ere, text, from, Blank::new(1)) {
        Ok(Some(span)) => format!(in alloc; "{}-{}", span.from, span.to),
        Ok(None) => String::from_str(alloc, "none"),
        Err(_) => String::from_str(alloc, "no memory"),
    }
}

/// Where the hit of an expression lies in a text from a place on.
struct Spans;

impl Tells for Spans {
    fn told(&self, alloc: Global, given: &str) -> Result<String, AllocError> {
        let Some((pattern, text, from)) = numbered(given) else {
            return no_row(alloc);
        };
        let text = bytes_of(alloc, text)?;
        told(alloc, pattern, text.as_slice(), from)
    }
}

/// The same in a front, so many `a`, and an end.
struct Behind;

impl Tells for Behind {
    fn told(&self, alloc: Global, given: &str) -> Result<String, AllocError> {
        let Some((pattern, front, count, end)) = four(given) else {
            return no_row(alloc);
        };
        let text = surrounded(alloc, front, count, end)?;
        told(alloc, pattern, text.as_slice(), 0)
    }
}

/// An expression, a text, where the search begins, and where the hit lies.
const SPANS: &str = r"b+ => abba => 0 => 1-3
b+ => abba => 2 => 2-3
c => abba => 0 => none
(a)\1 => baab => 0 => 1-3
(a)\1 => aaa => 1 => 1-3
(a*)\1b => aaab => 0 => 1-4
(a|b)+\1 => abb => 0 => 0-3
x(.*)y\1 => xabyab => 0 => 0-6
(a)|b\1 => b => 0 => none";

#[test]
fn where_a_hit_lies_is_told(rt: HostRuntime) -> Result<(), AllocError> {
    each_is_told(&rt, rt.alloc(), SPANS, &Spans)
}

/// An expression that nothing begins with at many places, a front, how many `a` stand behind it, an end, and where the hit lies.
const AHEAD: &str = r"((a|b)+)\1c => bbbbbbbbbbbbbbbbbbbbbbbbbbbbbbbbbbbbbbbb => 801 => c => 41-842
((a|b)+)\1c => bbbbbbbbbbbbbbbbbbbbbbbbbbbbbbbbbbbbbbbb => 801 =>  => none
((a|b)+)\1c => bbbbbbbbbbbbbbbbbbbbbbbbbbbbbbbbbbbbbbbb => 800 => c => 40-841
(a*)*\1b =>  => 2000 => b => 0-2001";

#[test]
fn many_places_are_passed_at_once(rt: HostRuntime) -> Result<(), AllocError> {
    each_is_told(&rt, rt.alloc(), AHEAD, &Behind)
}
