//! The rows of a dump, one by one. A row takes no memory.
ghost use Rattle.std.specs.Prelude.{◌≡◌, ◌≤◌, ◌<◌, ◌^◌, ◌++◌, All, IfOk, IfSome, None, [], length};
ghost use Rattle.input_dump.specs.Dump.{counted, ends_marked, line_at, rows, width_of};
ghost use Rattle.input_dump.specs.Rows.{row_bytes};
ghost use Rattle.std.specs.List.{slice_split};
ghost use Rattle.tt_base.specs.Place.{is_newline};

use crate::cursor::next_row;
use crate::marking::Mark;
use crate::newlines::line_behind;
use crate::order::{by_offset, lines_of};
use crate::row::Row;
use crate::shown::Shown;
use crate::subject::{Cursor, Subject};
use std::alloc::Global;
use std::marker::Model;
use tt_base::{NoMemory, line_of};

/// The rows of a dump that aren't told.
#[derive(Drop)]
pub struct Rows<'a> {
    subject: Subject<'a>,
    cursor: Cursor,
}

impl<'a> Model for Rows<'a> {
    ghost use Rattle.std.specs.Prelude.{List, ℕ};
    ghost use Rattle.input_dump.specs.Follow.{Follows, IsSubject, left};

    ghost Value = { List ℕ };

    ghost view = { λ rows. left rows.subject rows.cursor };

    ghost invariant = { λ rows. IsSubject rows.subject × Follows rows.subject rows.cursor };
}

/// How many lines a text has, of which the line of an offset is known. The empty one behind a last newline counts where it is marked.
fn line_count(text: &[u8], marked: bool, line: u64, from: usize) -> u64
    requires short { length text.now ≤ 2 ^ 30 }
    requires within { from ≤ length text.now }
    requires known { line ≡ line_at text.now from }
    ensures exact { result ≡ length (counted marked (slice_split is_newline text.now)) }
    ensures small { result < 2 ^ 32 }
{
    let end = line_behind(text, line, from, text.len());
    if marked {
        return end;
    }
    let last = line_of(text, text.len()).from;
    if last == text.len() { end - 1 } else { end }
}

/// Whether a mark stands at the end of a text.
fn ends_marked(text: &[u8], marks: &[Mark]) -> bool
    ensures { result ≡ ends_marked text.now marks.now }
{
    marks.iter().any(|mark| mark.at == text.len())
}

/// How wide the numbers of lines are.
fn width_of(alloc: Global, count: u64) -> Result<usize, NoMemory>
    requires { count < 2 ^ 32 }
    ensures exact { IfOk result (λ width. width ≡ width_of count) }
    ensures small { IfOk result (λ width. width ≤ 10) }
{
    match count.to_string(alloc) {
        Ok(digits) => Ok(digits.len().max(6)),
        Err(_) => Err(NoMemory),
    }
}

impl<'a> Rows<'a> {
    /// All rows of a dump.
    pub fn new(
        alloc: Global,
        text: &'a [u8],
        marks: &'a [Mark],
        shown: &Shown,
    ) -> Result<Rows<'a>, NoMemory>
        requires short { length text.now ≤ 2 ^ 30 }
        requires within { All (λ mark. mark.at ≤ length text.now) marks.now }
        ensures { IfOk result (λ all. all ≡ rows text.now marks.now shown.now) }
    {
        let Ok(order) = by_offset(alloc, text.len(), marks) else {
            return Err(NoMemory);
        };
        let Ok(lines) = lines_of(alloc, text, order.as_slice()) else {
            return Err(NoMemory);
        };
        let marked = ends_marked(text, marks);
        let count = line_count(text, marked, lines.last, lines.from);
        let width = width_of(alloc, count)?;
        let subject = Subject {
            text,
            shown: *shown,
            order,
            lines: lines.all,
            marked,
            width,
        };
        let cursor = Cursor {
            start: 0,
            last: 0,
            number: 1,
            passed: 0,
            told: 0,
            hidden: false,
        };
        Ok(Rows { subject, cursor })
    }

    /// The next row. There is none at the end.
    pub(crate) fn next_row(&mut self) -> Option<Row<'a>>
        ensures moved { IfSome result (λ row. row_bytes row ++ self.new ≡ self.old) }
        ensures end { result ≡ None → (self.old ≡ []) × (self.new ≡ []) }
        ensures less { IfSome result (λ row. length self.new < length self.old) }
    {
        next_row(&self.subject, &mut self.cursor)
    }
}
