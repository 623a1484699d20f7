//! The lines of a text, and those of an output that count.
ghost use Rattle.std.specs.Prelude.{◌≡◌, ◌≤◌, ◌<◌, ◌^◌, ◌∷◌, IfSome, IsTrue, length, slice_index, true};
ghost use Rattle.std.specs.List.{position_from, slice_split};
ghost use Rattle.tt_base.specs.Place.{is_newline};
ghost use Rattle.file_laws.specs.Made.{is_too_long};
ghost use Rattle.make_checks.specs.Made.{NoneIsLong, lines_behind, trimmed};

use crate::room::room_behind_body;
use memchr::{memchr, memrchr};
use pattern_parse::MAX_BODY;

/// The first line of a text, and what stands behind its newline, if it has one.
pub(crate) fn first_line(text: &[u8]) -> (&[u8], Option<&[u8]>)
    ensures split { slice_split is_newline text.now ≡ result.0.now ∷ lines_behind result.1 }
    ensures within { length result.0.now ≤ length text.now }
    ensures rest { IfSome result.1 (λ rest. length rest.now < length text.now) }
{
    match memchr(b'\n', text) {
        Some(at) => (&text[..at], Some(&text[at + 1..])),
        None => (text, None),
    }
}

/// A text without the newlines at its end.
#[tactic(auto, using(crate::proofs::TrimLemmas::trimmed_newline, crate::proofs::TrimLemmas::trimmed_other))]
pub(crate) fn trimmed(text: &[u8]) -> &[u8]
    ensures value { result.now ≡ trimmed text.now }
    ensures within { length result.now ≤ length text.now }
{
    let mut rest = text;
    while let Some((last, front)) = rest.split_last() {
        if *last != b'\n' {
            return rest;
        }
        rest = front;
    }
    rest
}

/// The length of a line whose body is within the limit, whatever stands in it: at most seven bytes stand for one.
const SHORT: usize = 9360;

/// Whether the body of a line would be too long for a directive.
fn is_too_long(line: &[u8]) -> bool
    ensures { result ≡ is_too_long line.now }
{
    if line.len() <= SHORT {
        return false;
    }
    match room_behind_body(MAX_BODY, line) {
        Some(_) => false,
        None => true,
    }
}

/// The last newline that a short line at the front of a text could end before.
fn newline_near(text: &[u8]) -> Option<usize>
    requires { SHORT < length text.now }
    ensures within { IfSome result (λ at. at < length text.now) }
    ensures near { IfSome result (λ at. at ≤ SHORT) }
    ensures newline { IfSome result (λ at. is_newline (slice_index text.now at) ≡ true) }
{
    memrchr(b'\n', &text[..SHORT + 1])
}

/// Whether all lines are short: within so many bytes and one more there is always a newline.
fn are_short(text: &[u8]) -> bool
    ensures { IsTrue result → NoneIsLong (slice_split is_newline text.now) }
{
    let mut rest = text;
    while rest.len() > SHORT {
        match newline_near(rest) {
            Some(at) => rest = &rest[at + 1..],
            None => return false,
        }
    }
    true
}

/// The number of the first line whose body would be too long, from 1.
pub(crate) fn long_line(text: &[u8]) -> Option<u32>
    requires { length text.now ≤ 2 ^ 30 }
    ensures { result ≡ position_from is_too_long 1 (slice_split is_newline text.now) }
{
    if are_short(text) {
        return None;
    }
    let mut number = 1;
    let mut rest = text;
    loop {
        let (line, behind) = first_line(rest);
        if is_too_long(line) {
            return Some(number);
        }
        match behind {
            None => return None,
            Some(behind) => rest = behind,
        }
        number += 1;
    }
}
