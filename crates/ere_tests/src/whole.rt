//! Which texts an expression matches as a whole.
use crate::rows::{Tells, bytes_of, each_is_told, four, no_row};
use ere_places::{Direction, Window, image};
use ere_tree::{Ere, parse};
use ere_whole::matches_whole;
use std::alloc::{AllocError, Global};
use std::process::Abort;

/// Whether the expression matches the text as a whole, as it is told by that call, and by the listed ends of matches.
/// Nothing of one that has references.
fn told(alloc: Global, ere: &Ere, text: &[u8]) -> Result<Option<(bool, bool)>, AllocError> {
    if ere.has_refs() {
        return Ok(None);
    }
    let window = Window {
        low: 0,
        high: text.len(),
        direction: Direction::Ahead,
    };
    let ends = image(alloc, ere, text, window, &[0])?;
    Ok(Some((matches_whole(ere, text), ends.contains(&text.len()))))
}

/// What both tell of an expression over a text, in a word.
fn word_of(alloc: Global, ere: &Ere, text: &[u8]) -> Result<&'static str, AllocError> {
    Ok(match told(alloc, ere, text)? {
        Some((true, true)) => "yes",
        Some((false, false)) => "no",
        _ => "two answers",
    })
}

fn tells(alloc: Global, expression: &str, text: &[u8]) -> Result<String, AllocError> {
    match parse(alloc, expression.as_bytes(), false) {
        Ok(ere) => String::from_str(alloc, word_of(alloc, &ere, text)?),
        Err(_) => no_row(alloc),
    }
}

/// Whether an expression matches a text as a whole.
struct Short;

impl Tells for Short {
    fn told(&self, alloc: Global, given: &str) -> Result<String, AllocError> {
        let Some((expression, text)) = given.split_once(" => ") else {
            return no_row(alloc);
        };
        let text = bytes_of(alloc, text)?;
        tells(alloc, expression, text.as_slice())
    }
}

/// An expression, a text, and whether it matches the text as a whole.
const SHORT: &str = "arm.* => armv7 => yes
arm.* => charm => no
.*linux.* => x86_64-unknown-linux-gnu => yes
.*linux => x86_64-unknown-linux-gnu => no
(a|b|c)* => abccba => yes
(a|b|c)* => abcd => no
 =>  => yes
 => a => no
a|ab => ab => yes
(a|ab)(c|bcd) => abcd => yes
a{2,3} => a => no
a{2,3} => aaa => yes
a{2,3} => aaaa => no
(a?){3} => aa => yes
(a?){3} => aaaa => no
(a{2}){2,} => aaaaa => no
(a{2}){2,} => aaaaaa => yes
(aa|aaa)+b => aaaaab => yes
(aa|aaa)+b => ab => no
(^a$)* => a => yes
(a$.?)*^b => a~b => no
a$[[:space:]]^b => a~b => yes
a^b => ab => no
a$b => ab => no
x{0} => x => no";

#[test]
fn short_texts_match_as_a_whole_or_not(rt: HostRuntime) -> Result<(), AllocError> {
    each_is_told(&rt, rt.alloc(), SHORT, &Short)
}

/// The same of texts that are a piece so many times, and an end. 256 is the first length of two blocks, and 512 of three.
const LONG: &str = "(a*)*b => a => 60 =>  => no
(a*)*b => a => 60 => b => yes
a* => a => 255 =>  => yes
a* => a => 256 =>  => yes
a{1,200} => a => 256 =>  => no
a{255}b => a => 255 => b => yes
a{255}b => a => 256 => b => no
(ab)*c => ab => 140 => c => yes
(ab)*c => ab => 140 => ac => no
(a{3})* => a => 258 =>  => yes
(a{3})* => a => 260 =>  => no
.*x.*y => a => 257 => xy => yes
.*x.*y => a => 257 => yx => no
(a|[[:space:]])*$ => a => 256 => ~ => yes
(a$|[[:space:]])*$ => a => 256 => ~ => no
[a-z]*b => a => 511 => b => yes
[a-z]*b => a => 512 =>  => no
(a|b|c)* => abc => 400 =>  => yes
(a|b|c)* => abc => 400 => d => no
(aa)+ => a => 1025 =>  => no
(a*b)*c => aab => 300 => c => yes";

/// So many pieces with an end behind them.
fn repeated(alloc: Global, piece: &str, times: usize, end: &str) -> Result<Vec<u8>, AllocError> {
    let end = bytes_of(alloc, end)?;
    let mut text = Vec::new(alloc);
    for _ in 0..times {
        text.extend_from_slice(piece.as_bytes())?;
    }
    text.extend_from_slice(end.as_slice())?;
    Ok(text)
}

/// Whether an expression matches so many pieces and an end as a whole.
struct Long;

impl Tells for Long {
    fn told(&self, alloc: Global, given: &str) -> Result<String, AllocError> {
        let Some((expression, piece, times, end)) = four(given) else {
            return no_row(alloc);
        };
        let text = repeated(alloc, piece, times, end)?;
        tells(alloc, expression, text.as_slice())
    }
}

#[test]
fn long_texts_match_as_a_whole_or_not(rt: HostRuntime) -> Result<(), AllocError> {
    each_is_told(&rt, rt.alloc(), LONG, &Long)
}

fn letter(number: usize) -> u8 {
    match number % 3 {
        0 => b'a',
        1 => b'b',
        _ => b'\n',
    }
}

/// Whether a text is told as its ends are listed.
fn is_as_listed(alloc: Global, ere: &Ere, text: &[u8]) -> Result<bool, AllocError> {
    match told(alloc, ere, text)? {
        Some((one, other)) => Ok(one == other),
        None => Ok(false),
    }
}

/// Sees that an expression is told over all texts of up to four letters as its ends are listed.
fn check_all(rt: &impl Abort, alloc: Global, expression: &str) -> Result<(), AllocError> {
    let ere = parse(alloc, expression.as_bytes(), false).or(Err(AllocError))?;
    for number in 0..81usize {
        let text = [
            letter(number),
            letter(number / 3),
            letter(number / 9),
            letter(number / 27),
        ];
        for long in 0..5 {
            let is_listed = is_as_listed(alloc, &ere, &text[..long])?;
            assert!(rt; is_listed, "{expression} over text {number} of {long}");
        }
    }
    Ok(())
}

const EXPRESSIONS: &str = "(a|ab)*
(a*b?){2}
(^|b)a*$
(a|^b){1,2}
((a?){2})+b*
.[^a]?(b|$)*";

#[test]
fn all_short_texts_are_told_as_their_ends_are_listed(rt: HostRuntime) -> Result<(), AllocError> {
    for expression in EXPRESSIONS.lines() {
        check_all(&rt, rt.alloc(), expression)?;
    }
    Ok(())
}
