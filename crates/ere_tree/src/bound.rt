//! Bounds: how often an atom is repeated.
ghost use Rattle.std.specs.Prelude.{◌≡◌, ◌≤◌, ◌<◌, ◌+◌, ◌^◌, IfSome, IsTrue, length, min};
ghost use Rattle.ere_tree.specs.Bound.{digit_count, number_at, braced, behind_comma, at_least, between, begins_bound, bound_at};

use crate::front::{begins, begins_digit, behind};

/// The greatest number in a bound.
pub const MAX_BOUND: u32 = 255;

/// From `least` repetitions up to `most`, where there is a most.
#[derive(Clone, Copy, Debug, PartialEq, Eq)]
pub(crate) struct Bound {
    pub(crate) least: u32,
    pub(crate) most: Option<u32>,
}

/// How many digits the text begins with, and the number that they spell, or 256 where it is greater.
#[tactic(auto, using(crate::proofs::BoundLemmas::digit_steps), unfolding(crate::specs::Bound::number_at))]
fn digits(text: &[u8]) -> (usize, u32)
    ensures count { result.0 ≡ digit_count text.now }
    ensures number { result.1 ≡ min 256 (number_at text.now) }
    ensures within { result.0 ≤ length text.now }
{
    let mut number: u32 = 0;
    for (index, byte) in text.iter().enumerate() {
        if *byte < b'0' || *byte > b'9' {
            return (index, number);
        }
        number = (number * 10 + u32::from(*byte - b'0')).min(256);
    }
    (text.len(), number)
}

fn open_bound(least: u32, taken: usize) -> Option<(Bound, usize)>
    requires { least ≤ 256 }
    ensures { result ≡ at_least least taken }
{
    if least <= MAX_BOUND {
        Some((Bound { least, most: None }, taken))
    } else {
        None
    }
}

fn closed_bound(least: u32, most: u32, taken: usize) -> Option<(Bound, usize)>
    ensures { result ≡ between least most taken }
{
    if least <= most && most <= MAX_BOUND {
        Some((
            Bound {
                least,
                most: Some(most),
            },
            taken,
        ))
    } else {
        None
    }
}

/// The end of a bound, behind `{m,`.
fn end_of_bound(least: u32, taken: usize, text: &[u8]) -> Option<(Bound, usize)>
    requires small { least ≤ 256 }
    requires fits { taken + length text.now < 2 ^ 64 }
    ensures exact { result ≡ behind_comma least taken text.now }
    ensures within { IfSome result (λ found. found.1 ≤ taken + length text.now) }
{
    if begins(text, b'}') {
        return open_bound(least, taken + 1);
    }
    if !begins_digit(text) {
        return None;
    }
    let (count, most) = digits(text);
    if begins(behind(text, count), b'}') {
        closed_bound(least, most, taken + count + 1)
    } else {
        None
    }
}

/// The bound in braces that the text begins with behind its `{`.
#[tactic(auto, unfolding(crate::specs::Bound::braced))]
fn braces(text: &[u8]) -> Option<(Bound, usize)>
    requires { length text.now + 1 < 2 ^ 64 }
    ensures exact { result ≡ braced text.now }
    ensures within { IfSome result (λ found. found.1 ≤ length text.now + 1) }
{
    let (count, least) = digits(text);
    let rest = behind(text, count);
    if begins(rest, b'}') {
        closed_bound(least, least, count + 2)
    } else if begins(rest, b',') {
        end_of_bound(least, count + 2, behind(rest, 1))
    } else {
        None
    }
}

/// Whether a bound begins here, good or bad.
#[tactic(auto, unfolding(crate::specs::Bound::begins_bound))]
pub(crate) fn bound_begins(text: &[u8]) -> bool
    ensures exact { result ≡ begins_bound text.now }
    ensures some { IsTrue result → 0 < length text.now }
{
    begins(text, b'*')
        || begins(text, b'+')
        || begins(text, b'?')
        || (begins(text, b'{') && begins_digit(behind(text, 1)))
}

/// The good bound at the front of the text, where there is one, and its length.
#[tactic(auto, unfolding(crate::specs::Bound::bound_at))]
pub(crate) fn find_bound(text: &[u8]) -> Option<(Bound, usize)>
    ensures exact { result ≡ bound_at text.now }
    ensures within { IfSome result (λ found. found.1 ≤ length text.now) }
{
    if begins(text, b'*') {
        Some((
            Bound {
                least: 0,
                most: None,
            },
            1,
        ))
    } else if begins(text, b'+') {
        Some((
            Bound {
                least: 1,
                most: None,
            },
            1,
        ))
    } else if begins(text, b'?') {
        Some((
            Bound {
                least: 0,
                most: Some(1),
            },
            1,
        ))
    } else if bound_begins(text) {
        braces(behind(text, 1))
    } else {
        None
    }
}
