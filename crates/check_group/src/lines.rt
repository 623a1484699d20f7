//! On which line a match stands.
ghost use Rattle.std.specs.Prelude.{◌≡◌, ◌≤◌, ◌<◌, ◌^◌, IfOk, IfSome, count_by, length};
ghost use Rattle.tt_base.specs.Place.{is_newline};
ghost use Rattle.check_group.specs.Lines.{IsEmptyLine, behind_newline, empty_line, newlines, on_next_line, on_same_line};

use crate::answer::Met;
use crate::fault::FaultKind;
use memchr::memchr_iter;
use std::alloc::Global;
use tt_base::{Items, Span, find_in};

/// The least newline from a place on behind which a line is empty.
pub(crate) fn empty_line(text: &[u8], from: usize) -> Option<usize>
    requires within { from ≤ length text.now }
    ensures least { IsEmptyLine text.now from result }
    ensures value { result ≡ empty_line text.now from }
{
    match find_in(text, b"\n\n", from, text.len()) {
        Some(at) => Some(at),
        None => {
            if from < text.len() && text[text.len() - 1] == b'\n' {
                Some(text.len() - 1)
            } else {
                None
            }
        }
    }
}

/// The empty match behind a newline.
pub(crate) fn behind_newline(
    alloc: Global,
    from: usize,
    newline: Option<usize>,
) -> Result<Met, FaultKind>
    requires { IfSome newline (λ at. at < 2 ^ 63) }
    ensures { result ≡ behind_newline from newline }
{
    match newline {
        Some(at) => Ok(Met {
            span: Span::of(at + 1, 0),
            fresh: Items::new(alloc),
        }),
        None => Err(FaultKind::NotFound { from, done: 0 }),
    }
}

/// A match that has to stand on the line after the match before, which ended at `last`.
pub(crate) fn on_next_line(
    text: &[u8],
    last: usize,
    found: Result<Met, FaultKind>,
) -> Result<Met, FaultKind>
    requires { IfOk found (λ m. (last ≤ m.span.from) × (m.span.to ≤ length text.now)) }
    ensures { result ≡ on_next_line text.now last found }
{
    match found {
        Ok(m) => {
            let newlines = newlines(text, last, m.span.from);
            if newlines == 1 {
                Ok(m)
            } else {
                Err(FaultKind::WrongLine {
                    found: m.span.from,
                    last,
                    newlines,
                })
            }
        }
        Err(kind) => Err(kind),
    }
}

/// A match that has to stand on the line of the match before, which ended at `last`.
pub(crate) fn on_same_line(
    text: &[u8],
    last: usize,
    found: Result<Met, FaultKind>,
) -> Result<Met, FaultKind>
    requires { IfOk found (λ m. (last ≤ m.span.from) × (m.span.to ≤ length text.now)) }
    ensures { result ≡ on_same_line text.now last found }
{
    match found {
        Ok(m) => {
            if newlines(text, last, m.span.from) == 0 {
                Ok(m)
            } else {
                Err(FaultKind::NotSameLine {
                    found: m.span.from,
                    last,
                })
            }
        }
        Err(kind) => Err(kind),
    }
}

/// How many newlines stand between two places.
fn newlines(text: &[u8], from: usize, to: usize) -> u64
    requires ordered { from ≤ to }
    requires within { to ≤ length text.now }
    ensures { result ≡ newlines text.now from to }
{
    newline_count(&text[from..to]) as u64
}

/// How many newlines a text has.
fn newline_count(text: &[u8]) -> usize
    ensures { result ≡ count_by is_newline text.now }
{
    memchr_iter(b'\n', text).count()
}
