//! The forms `%(line+n)` and `%(line-n)`.
ghost use Rattle.std.specs.Prelude.{◌≡◌, ◌<◌, ◌≤◌, ◌^◌, ◌++◌, IfSome, length};
ghost use Rattle.std.specs.Fmt.{signed_decimal};
ghost use Rattle.substs.specs.Expansion.{Adds, Makes, within};
ghost use Rattle.substs.specs.Replacement.{closed_number, form_rule, reckoned, replaced};

use crate::fail::{ExpandFail, add, add_both};
use itoa::Buffer;
use opt_words::decimal;
use std::alloc::Global;
use tt_base::{Bytes, find_in};

/// How many digits a form has at most.
const MOST_DIGITS: usize = 9;

/// The text in which each form with this front gives way to the number of its line, which is ahead or behind.
pub(crate) fn replace_forms(
    alloc: Global,
    text: &[u8],
    front: &[u8],
    ahead: bool,
    line: u32,
) -> Result<Bytes, ExpandFail>
    requires { 0 < length front.now }
    ensures { Makes result (within (replaced (form_rule front.now (reckoned ahead line)) text.now)) }
{
    let mut made = Bytes::new(alloc);
    let mut done = 0;
    while let Some(at) = find_in(text, front, done, text.len()) {
        match closed_number(&text[at + front.len()..]) {
            Some((count, number)) => {
                add_line(&mut made, &text[done..at], ahead, line, number)?;
                done = at + front.len() + count + 1;
            }
            None => {
                add(&mut made, &text[done..at + 1])?;
                done = at + 1;
            }
        }
    }
    add(&mut made, &text[done..])?;
    Ok(made)
}

/// Adds a piece at the end of a line, and behind it the number of the line so many lines ahead or behind.
fn add_line(
    made: &mut Bytes,
    piece: &[u8],
    ahead: bool,
    line: u32,
    number: u64,
) -> Result<(), ExpandFail>
    requires { length made.old ≤ 2 ^ 20 }
    ensures { Adds made.old (piece.now ++ signed_decimal (reckoned ahead line number)) made.new result }
{
    let line = reckoned(ahead, line, number);
    add_number(made, piece, line)
}

/// Adds a piece at the end of a line, and a number behind it.
fn add_number(made: &mut Bytes, piece: &[u8], number: i128) -> Result<(), ExpandFail>
    requires { length made.old ≤ 2 ^ 20 }
    ensures { Adds made.old (piece.now ++ signed_decimal number) made.new result }
{
    let mut buffer = Buffer::new();
    add_both(made, piece, buffer.format(number).as_bytes())
}

/// The number of the line so many lines ahead or behind.
fn reckoned(ahead: bool, line: u32, number: u64) -> i128
    ensures { result ≡ reckoned ahead line number }
{
    if ahead {
        i128::from(line) + i128::from(number)
    } else {
        i128::from(line) - i128::from(number)
    }
}

/// The number in front of a `)`, and how many digits it has.
fn closed_number(text: &[u8]) -> Option<(usize, u64)>
    ensures value { result ≡ closed_number text.now }
    ensures lies { IfSome result (λ found. found.0 < length text.now) }
{
    match find_in(text, b")", 0, text.len().min(MOST_DIGITS + 1)) {
        Some(count) => match decimal(&text[..count]) {
            Some(number) => Some((count, number)),
            None => None,
        },
        None => None,
    }
}
