//! Whether there is room for a check file.
ghost use Rattle.std.specs.Prelude.{◌≤◌, ◌+◌, ◌-◌, ◌^◌, ◌↔◌, IsTrue, SomeIff, length};
ghost use Rattle.quote_laws.specs.Quote.{body_of, quote};
ghost use Rattle.file_laws.specs.Made.{made_text};
ghost use Rattle.make_checks.specs.Directives.{LeavesRoom, directive_text, line_text};
ghost use Rattle.make_checks.specs.Made.{lines_in};

use crate::directives::{Directive, Left, parted};
use crate::quoting::quoted;
use byte_counts::count_of;
use memchr::memchr2;

/// How many bytes the two anchors of a body have.
const ANCHORS: usize = 10;

/// The room that is left behind so many bytes and so many more.
fn room_behind_both(room: usize, first: usize, second: usize) -> Option<usize>
    ensures { SomeIff result (first + second ≤ room) (room - (first + second)) }
{
    room.checked_sub(first)?.checked_sub(second)
}

/// The room that is left behind what stands for a line.
fn room_behind_quoted(room: usize, line: &[u8]) -> Option<usize>
    ensures { LeavesRoom (quote line.now) room result }
{
    let mut left = room;
    let mut rest = line;
    while let Some(at) = memchr2(b'[', b'{', rest) {
        match room_behind_both(left, at, quoted(rest[at]).len()) {
            Some(less) => left = less,
            None => return None,
        }
        rest = &rest[at + 1..];
    }
    left.checked_sub(rest.len())
}

/// The same of a body.
pub(crate) fn room_behind_body(room: usize, line: &[u8]) -> Option<usize>
    ensures { LeavesRoom (body_of line.now) room result }
{
    let behind = room.checked_sub(ANCHORS)?;
    room_behind_quoted(behind, line)
}

/// The same of a directive.
fn room_behind_directive(room: usize, directive: Directive<'_>) -> Option<usize>
    ensures { LeavesRoom (directive_text directive.entry) room result }
{
    match directive {
        Directive::Plain(words) => room.checked_sub(words.len()),
        Directive::Asks(words, line) => {
            let behind = room.checked_sub(words.len())?;
            room_behind_body(behind, line)
        }
    }
}

/// The same of a directive on a line of its own, behind the lead.
fn room_behind_line(room: usize, lead: &[u8], directive: Directive<'_>) -> Option<usize>
    ensures { LeavesRoom (line_text lead.now directive.entry) room result }
{
    let behind = room_behind_both(room, lead.len(), 1)?;
    room_behind_directive(behind, directive)
}

/// The room that is left behind the directives of lines.
fn room_behind(room: usize, lead: &[u8], lines: &[u8]) -> Option<usize>
    ensures { LeavesRoom (made_text lead.now (lines_in lines.now)) room result }
{
    let mut room = room;
    let mut left = Left::Front(lines);
    while let Some((directive, later)) = parted(left) {
        match room_behind_line(room, lead, directive) {
            Some(less) => room = less,
            None => return None,
        }
        left = later;
    }
    Some(room)
}

/// How many bytes a line of the output takes at most, beside its own and the lead: those of the words, of both anchors and of the newline.
const LINE: usize = 23;

/// Whether so many bytes and so many more fit.
fn both_fit(room: usize, first: usize, second: usize) -> bool
    ensures { IsTrue result ↔ (first + second ≤ room) }
{
    first <= room && second <= room - first
}

/// Whether there is room even if each directive were as long as the longest of them; three counts tell it.
fn is_roomy(room: usize, lead: &[u8], lines: &[u8]) -> bool
    requires { length lines.now ≤ 2 ^ 30 }
    ensures { IsTrue result → length (made_text lead.now (lines_in lines.now)) ≤ room }
{
    let brackets = count_of(b'[', lines);
    let braces = count_of(b'{', lines);
    let newlines = count_of(b'\n', lines);
    let bodies = lines.len() + 6 * (brackets + braces);
    match (lead.len() + LINE).checked_mul(newlines + 3) {
        Some(words) => both_fit(room, words, bodies),
        None => false,
    }
}

/// Whether there is room for the directives of lines.
pub(crate) fn has_room(room: usize, lead: &[u8], lines: &[u8]) -> bool
    requires { length lines.now ≤ 2 ^ 30 }
    ensures { IsTrue result ↔ (length (made_text lead.now (lines_in lines.now)) ≤ room) }
{
    is_roomy(room, lead, lines) || room_behind(room, lead, lines).is_some()
}
