//! Which places an expression leads to, ahead and back.
use crate::rows::{Tells, bytes_of, each_is_told, no_row, numbered};
use ere_places::{Direction, Window, image};
use ere_tree::parse;
use std::alloc::{AllocError, Global};

/// The places, in order, that an expression leads to from one place. Nothing of an expression that is refused or has
/// references, or behind the text.
fn led(
    alloc: Global,
    expression: &str,
    text: &[u8],
    direction: Direction,
    place: usize,
) -> Option<Vec<usize>> {
    let ere = parse(alloc, expression.as_bytes(), false).ok()?;
    if ere.has_refs() || place > text.len() {
        return None;
    }
    let window = Window {
        low: 0,
        high: text.len(),
        direction,
    };
    let mut found = image(alloc, &ere, text, window, &[place]).ok()?;
    found.sort().ok()?;
    Some(found)
}

/// The places that an expression leads to from a place in a text.
struct Leads(Direction);

impl Tells for Leads {
    fn told(&self, alloc: Global, given: &str) -> Result<String, AllocError> {
        let Some((expression, text, place)) = numbered(given) else {
            return no_row(alloc);
        };
        let text = bytes_of(alloc, text)?;
        match led(alloc, expression, text.as_slice(), self.0, place) {
            Some(places) => format!(in alloc; "{places:?}"),
            None => no_row(alloc),
        }
    }
}

/// An expression, a text, a start, and the ends that it leads to.
const AHEAD: &str = "a* => aab => 0 => [0, 1, 2]
(a|ab)(c|bcd)? => abcd => 0 => [1, 2, 3, 4]
a{2} => aaaa => 0 => [2]
a{1,2} => aaaa => 1 => [2, 3]
(a|b)*$ => ab~a => 0 => [2]
^b => a~b => 2 => [3]
() => a => 1 => [1]
(a*)*b => aab => 0 => [3]
x{0} => x => 0 => [0]
(a?){3} => aaaa => 0 => [0, 1, 2, 3]";

/// An expression, a text, an end, and the starts that it leads back to.
const BACK: &str = "a* => aab => 2 => [0, 1, 2]
(a|ab)(c|bcd)? => abcd => 4 => [0]
a{2} => aaaa => 4 => [2]
a{1,2} => aaaa => 3 => [1, 2]
(a|b)*$ => ab~a => 2 => [0, 1, 2]
^b => a~b => 3 => [2]
() => a => 0 => [0]
(a*)*b => aab => 3 => [0, 1, 2]
x{0} => x => 1 => [1]
(a?){3} => aaaa => 4 => [1, 2, 3, 4]";

#[test]
fn spans_are_told_by_their_ends(rt: HostRuntime) -> Result<(), AllocError> {
    each_is_told(&rt, rt.alloc(), AHEAD, &Leads(Direction::Ahead))
}

#[test]
fn spans_are_told_by_their_starts(rt: HostRuntime) -> Result<(), AllocError> {
    each_is_told(&rt, rt.alloc(), BACK, &Leads(Direction::Back))
}
