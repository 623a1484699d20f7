//! Worked examples of what is found where, and in how many ways.
use crate::rows::{Tells, bytes_of, each_is_told, no_row, numbered};
use crate::shown::in_words;
use ere_slow::{Limit, derivations, slow_hit};
use ere_tree::{ByteRun, Ere, EreList, parse};
use std::alloc::{AllocError, Global};

/// How many derivations there are in the text from its start on, and the hit in words.
fn told(alloc: Global, ere: &Ere, text: &[u8]) -> Result<String, AllocError> {
    let ways = derivations(alloc, ere, text, 0, &mut Limit::new())?.len();
    let words = hit_told(alloc, ere, text, 0)?;
    format!(in alloc; "{ways} ways, {words}")
}

/// What is told of an expression and a text.
struct Ways;

impl Tells for Ways {
    fn told(&self, alloc: Global, given: &str) -> Result<String, AllocError> {
        let Some((expression, text)) = given.split_once(" => ") else {
            return no_row(alloc);
        };
        let text = bytes_of(alloc, text)?;
        told_by(alloc, expression, text.as_slice())
    }
}

fn told_by(alloc: Global, expression: &str, text: &[u8]) -> Result<String, AllocError> {
    match parse(alloc, expression.as_bytes(), false) {
        Ok(ere) => told(alloc, &ere, text),
        Err(_) => no_row(alloc),
    }
}

/// An expression, a text, the number of derivations at its start, and the hit with its groups.
const WAYS: &str = r"(a|ab)(c|bcd)(d*) => abcd => 3 ways, 0-4 0-2 2-3 3-4
x((a*)(a*))b\3 => xaabaa => 3 ways, 0-6 1-3 1-1 1-3
(a?){3} => a => 4 ways, 0-1 1-1
(a*)* =>  => 1 ways, 0-0 none
(a*)+ =>  => 1 ways, 0-0 0-0
(a|ab)(b*)\2c => abbc => 1 ways, 0-4 0-1 1-2
(a)|(b)\1 => b => 0 ways, none
(a)\1 => aA => 0 ways, none
$ => a~b => 0 ways, 1-1
^b => b => 1 ways, 0-1
^b => ab => 0 ways, none";

#[test]
fn the_whole_way_is_chosen_together(rt: HostRuntime) -> Result<(), AllocError> {
    each_is_told(&rt, rt.alloc(), WAYS, &Ways)
}

/// `(a)\1`, where letters match in either case
fn twice(alloc: Global) -> Result<Ere, AllocError> {
    let inner = Ere::Plain(ByteRun::from_vec(Vec::from_slice(alloc, b"a")?));
    let inner = Box::new(alloc, inner)?;
    let mut parts = Vec::new(alloc);
    parts.push(Ere::Group { number: 1, inner })?;
    parts.push(Ere::Ref {
        number: 1,
        fold: true,
    })?;
    Ok(Ere::Cat(EreList::from_vec(parts)))
}

/// What is told of `(a)\1` in a text, where letters match in either case.
fn told_of_twice(alloc: Global, text: &[u8]) -> Result<String, AllocError> {
    let ere = twice(alloc)?;
    told(alloc, &ere, text)
}

#[test]
fn a_reference_may_match_in_either_case(rt: HostRuntime) -> Result<(), AllocError> {
    let told = told_of_twice(rt.alloc(), b"aA")?;
    assert!(rt; told.as_str() == "1 ways, 0-2 0-1", "{told}");
    Ok(())
}

/// The hit of an expression in a text from a place on.
struct Hits;

impl Tells for Hits {
    fn told(&self, alloc: Global, given: &str) -> Result<String, AllocError> {
        let Some((expression, text, from)) = numbered(given) else {
            return no_row(alloc);
        };
        match parse(alloc, expression.as_bytes(), false) {
            Ok(ere) => hit_told(alloc, &ere, text.as_bytes(), from),
            Err(_) => no_row(alloc),
        }
    }
}

fn hit_told(alloc: Global, ere: &Ere, text: &[u8], from: usize) -> Result<String, AllocError> {
    let hit = slow_hit(alloc, ere, text, from)?;
    in_words(alloc, &hit)
}

/// An expression, a text, where the search begins, and the hit with its groups.
const HITS: &str = "^b => ab => 1 => 1-2
^b => ab => 0 => none
a*$ => aab => 2 => 3-3
() => ab => 2 => 2-2 2-2
a => ab => 1 => none";

#[test]
fn a_search_speaks_of_the_slice_that_begins_there(rt: HostRuntime) -> Result<(), AllocError> {
    each_is_told(&rt, rt.alloc(), HITS, &Hits)
}
