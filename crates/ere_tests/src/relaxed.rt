//! Expressions in which each reference gave way to the expression of its group.
use crate::finding::{is_found_among, told_of};
use crate::parsing::shown;
use crate::rows::{Tells, each_is_told, no_row};
use ere_relaxed::relaxed;
use ere_tree::{Ere, EreList, parse};
use std::alloc::{AllocError, Global};

/// A piece of an expression: `\1` and, in either case, `\1i` are references; others are read. What is refused counts as
/// want of memory.
fn piece_of(alloc: Global, piece: &str) -> Result<Ere, AllocError> {
    match piece {
        r"\1" => Ok(Ere::Ref {
            number: 1,
            fold: false,
        }),
        r"\1i" => Ok(Ere::Ref {
            number: 1,
            fold: true,
        }),
        _ => parse(alloc, piece.as_bytes(), false).or(Err(AllocError)),
    }
}

/// Pieces between blanks one behind the other, each read for itself: so their groups begin with the same number.
fn joined(alloc: Global, pieces: &str) -> Result<Ere, AllocError> {
    let mut parts = Vec::new(alloc);
    for piece in pieces.split(' ') {
        parts.push(piece_of(alloc, piece)?)?;
    }
    Ok(Ere::Cat(EreList::from_vec(parts)))
}

/// The tree without references of an expression, in words.
fn told(alloc: Global, ere: &Ere) -> Result<String, AllocError> {
    shown(alloc, &relaxed(alloc, ere)?)
}

/// The tree of an expression that is read as a whole; in it letters may match in either case.
struct Whole {
    fold: bool,
}

impl Tells for Whole {
    fn told(&self, alloc: Global, given: &str) -> Result<String, AllocError> {
        match parse(alloc, given.as_bytes(), self.fold) {
            Ok(ere) => told(alloc, &ere),
            Err(_) => no_row(alloc),
        }
    }
}

/// The tree of pieces.
struct Pieces;

impl Tells for Pieces {
    fn told(&self, alloc: Global, given: &str) -> Result<String, AllocError> {
        let ere = joined(alloc, given)?;
        told(alloc, &ere)
    }
}

/// An expression and what it becomes: references in a group to one before it, groups in repeats, groups in groups,
/// anchors, and a group that is too large for a copy.
const WHOLE: &str = r"(a)\1 => cat( a alt( a ) )
(a)(b\1)\2 => cat( a cat( b alt( a ) ) alt( cat( b alt( a ) ) ) )
(a|b)*\1 => cat( 0-None(alt( a b )) alt( alt( a b ) ) )
(a)|b\1 => alt( a cat( b alt( a ) ) )
(a){2,3}\1+ => cat( 2-Some(3)(a) 1-None(alt( a )) )
((a)b)\1\2 => cat( cat( a b ) alt( cat( a b ) ) alt( a ) )
((b*)\2)\1 => cat( cat( 0-None(b) alt( 0-None(b) ) ) alt( cat( 0-None(b) alt( 0-None(b) ) ) ) )
^(^a)\1$ => cat( ^ cat( ^ a ) alt( cat( empty a ) ) $ )
((a{250}){250})\1 => cat( 250-Some(250)(250-Some(250)(a)) 0-None([256]) )";

/// Pieces and what they become: one number on several groups, on one behind the reference, on none, where any text may stand; and letters that a
/// reference in either case finds in one case alone.
const PIECES: &str = r"(a) (b)\1 => cat( a cat( b alt( a b ) ) )
(a)* \1 (b) => cat( 0-None(a) alt( a b ) b )
\1 (a) => cat( alt( a ) a )
\1 a => cat( 0-None([256]) a )
(a) \1i => cat( a 0-None([256]) )
(1) \1i => cat( 1 alt( 1 ) )
([a-c]) \1i => cat( [abc] 0-None([256]) )";

/// The same where letters match in either case.
const IN_EITHER_CASE: &str = r"(a)\1 => cat( [Aa] alt( [Aa] ) )
(1)\1 => cat( 1 alt( 1 ) )";

#[test]
fn a_reference_gives_way_to_the_expression_of_its_group(rt: HostRuntime) -> Result<(), AllocError> {
    each_is_told(&rt, rt.alloc(), WHOLE, &Whole { fold: false })?;
    each_is_told(&rt, rt.alloc(), IN_EITHER_CASE, &Whole { fold: true })?;
    each_is_told(&rt, rt.alloc(), PIECES, &Pieces)
}

/// The hit in a text of an expression without its references.
struct LetThrough;

impl Tells for LetThrough {
    fn told(&self, alloc: Global, given: &str) -> Result<String, AllocError> {
        let Some((pattern, text)) = given.split_once(" => ") else {
            return no_row(alloc);
        };
        match parse(alloc, pattern.as_bytes(), false) {
            Ok(ere) => let_through(alloc, &ere, text.as_bytes()),
            Err(_) => no_row(alloc),
        }
    }
}

/// The hit in a text of an expression without its references, in words.
fn let_through(alloc: Global, ere: &Ere, text: &[u8]) -> Result<String, AllocError> {
    let free = relaxed(alloc, ere)?;
    told_of(alloc, &free, text)
}

/// Whether an expression without its references is found nowhere in so many `a`.
fn is_shut_out(alloc: Global, pattern: &str, count: usize) -> Result<bool, AllocError> {
    let ere = piece_of(alloc, pattern)?;
    let free = relaxed(alloc, &ere)?;
    is_found_among(alloc, &free, b'a', count, "none")
}

/// An expression with references, a text, and where it is found once they have given way.
const SPANS: &str = r"(x)(aa?)+\1b => xaaaaaaaaaaaaaaaaaaaaaaaaaaaaaaaaaaaaaaaaaab => none
(x)(aa?)+\1b => xaaxb => 0-5
(x+)(y+)\2\1z => xyyyyxx => none
(a|b)\1 => ab => 0-2
(a*)\1b => ccb => 2-3";

#[test]
fn what_cannot_match_is_not_let_through(rt: HostRuntime) -> Result<(), AllocError> {
    each_is_told(&rt, rt.alloc(), SPANS, &LetThrough)?;
    assert!(rt; is_shut_out(rt.alloc(), r"(a+)\1b", 2_000)?);
    Ok(())
}
