//! The steps of a dump.
ghost use Rattle.std.specs.Prelude.{◌≡◌, ◌≤◌, ◌<◌, ◌↔◌, IfSome, IsTrue, None, drop, false, length, true};
ghost use Rattle.input_dump.specs.Dump.{any_close, is_shown};
ghost use Rattle.input_dump.specs.Follow.{AreNearTheSame, ArePassedAlike, Follows, GoesSilently, HasLess, HasLine, HasMark, IsAtEnd, IsFirstInReach, IsNearAsAll, IsReached, IsSubject, TakesRow, left};
ghost use Rattle.input_dump.specs.Order.{AreAscending};

use crate::newlines::{begin_before, line_end};
use crate::row::Row;
use crate::subject::{Cursor, Subject};

/// How many marks in order, whose lines these are, are near no line from this one on.
fn passed_by(lines: &[u64], passed: usize, context: u64, number: u64) -> usize
    requires { passed ≤ length lines.now }
    ensures within { result ≤ length lines.now }
    ensures same { AreNearTheSame context number (drop result lines.now) (drop passed lines.now) }
    ensures first { IsFirstInReach context number (drop result lines.now) }
{
    let mut passed = passed;
    while passed < lines.len() && lines[passed] < number && number - lines[passed] > context {
        passed += 1;
    }
    passed
}

/// How many marks are near no line from the one at hand on.
fn passed_on(subject: &Subject<'_>, cursor: &Cursor) -> usize
    requires { cursor.now.passed ≤ length subject.now.lines.items }
    ensures within { result ≤ length subject.now.lines.items }
    ensures same { ArePassedAlike subject.now cursor.now.number result cursor.now.passed }
    ensures first { IsReached subject.now cursor.now.number result }
{
    passed_by(
        subject.lines.as_slice(),
        cursor.passed,
        subject.shown.context,
        cursor.number,
    )
}

/// Whether a line that no mark before it is too far from is near the next one.
fn is_next_near(lines: &[u64], passed: usize, context: u64, number: u64) -> bool
    requires ascending { AreAscending lines.now }
    requires first { IsFirstInReach context number (drop passed lines.now) }
    ensures { result ≡ any_close context number (drop passed lines.now) }
{
    match lines.get(passed) {
        Some(line) => *line <= number || *line - number <= context,
        None => false,
    }
}

/// Whether a line is shown, where the marks that are passed are near none from here on.
fn is_shown(subject: &Subject<'_>, passed: usize, number: u64) -> bool
    requires ascending { AreAscending subject.now.lines.items }
    requires first { IsReached subject.now number passed }
    requires same { IsNearAsAll subject.now number passed }
    ensures { result ≡ is_shown subject.now.shown subject.now.lines.items number }
{
    if subject.shown.all {
        true
    } else {
        is_next_near(
            subject.lines.as_slice(),
            passed,
            subject.shown.context,
            number,
        )
    }
}

/// Whether a mark of the line before is to be told.
fn has_mark(subject: &Subject<'_>, cursor: &Cursor) -> bool
    ensures { IsTrue result ↔ HasMark subject.now cursor.now }
{
    cursor.told < subject.lines.len() && subject.lines[cursor.told] < cursor.number
}

/// Whether a line is at hand. The empty one behind a last newline is one only where a mark stands on it.
fn has_line(subject: &Subject<'_>, cursor: &Cursor) -> bool
    ensures { IsTrue result ↔ HasLine subject.now cursor.now }
{
    cursor.start < subject.text.len() || cursor.start == subject.text.len() && subject.marked
}

/// The next row. There is none at the end.
pub(crate) fn next_row<'a>(subject: &Subject<'a>, cursor: &mut Cursor) -> Option<Row<'a>>
    requires subject { IsSubject subject.now }
    requires follows { Follows subject.now cursor.old }
    ensures moved { IfSome result (TakesRow subject.now cursor.old cursor.new) }
    ensures end { result ≡ None → IsAtEnd subject.now cursor.old × IsAtEnd subject.now cursor.new }
    ensures less { IfSome result (λ row. HasLess subject.now cursor.old cursor.new) }
    ensures follows { Follows subject.now cursor.new }
{
    if has_mark(subject, cursor) {
        return Some(take_mark(subject, cursor));
    }
    while has_line(subject, cursor) {
        if let Some(row) = take_line(subject, cursor) {
            return Some(row);
        }
        pass_hidden(subject, cursor);
    }
    None
}

/// The row of a mark.
fn take_mark<'a>(subject: &Subject<'a>, cursor: &mut Cursor) -> Row<'a>
    requires subject { IsSubject subject.now }
    requires follows { Follows subject.now cursor.old }
    requires some { HasMark subject.now cursor.old }
    ensures moved { TakesRow subject.now cursor.old cursor.new result }
    ensures less { HasLess subject.now cursor.old cursor.new }
    ensures follows { Follows subject.now cursor.new }
{
    let mark = subject.order[cursor.told];
    let before = mark.at - cursor.last;
    cursor.told += 1;
    Row::Mark(subject.width, before, mark)
}

/// Goes over a line, and answers the row that it has: its own, or that of a gap that it begins.
fn take_line<'a>(subject: &Subject<'a>, cursor: &mut Cursor) -> Option<Row<'a>>
    requires subject { IsSubject subject.now }
    requires follows { Follows subject.now cursor.old }
    requires no_mark { ¬ HasMark subject.now cursor.old }
    requires line { HasLine subject.now cursor.old }
    ensures moved { IfSome result (TakesRow subject.now cursor.old cursor.new) }
    ensures less { IfSome result (λ row. HasLess subject.now cursor.old cursor.new) }
    ensures further { cursor.old.start < cursor.new.start }
    ensures silent { result ≡ None → GoesSilently subject.now cursor.old cursor.new }
    ensures follows { Follows subject.now cursor.new }
{
    let start = cursor.start;
    let number = cursor.number;
    let was_hidden = cursor.hidden;
    let end = line_end(subject.text, start);
    let passed = passed_on(subject, cursor);
    let shown = is_shown(subject, passed, number);
    *cursor = Cursor {
        start: end + 1,
        last: start,
        number: number + 1,
        passed,
        told: cursor.told,
        hidden: !shown,
    };
    if shown {
        let text = subject.text;
        return Some(Row::Line(subject.width, number, &text[start..end]));
    }
    if was_hidden {
        None
    } else {
        Some(Row::Gap(subject.width))
    }
}

/// Goes over lines that are hidden behind one that is.
fn pass_hidden(subject: &Subject<'_>, cursor: &mut Cursor)
    requires subject { IsSubject subject.now }
    requires follows { Follows subject.now cursor.old }
    requires no_mark { ¬ HasMark subject.now cursor.old }
    requires hidden { cursor.old.hidden ≡ true }
    ensures same { left subject.now cursor.new ≡ left subject.now cursor.old }
    ensures no_mark { ¬ HasMark subject.now cursor.new }
    ensures on { cursor.old.start ≤ cursor.new.start }
    ensures follows { Follows subject.now cursor.new }
{
    if subject.shown.all {
        return;
    }
    let next = passed_on(subject, cursor);
    if next < subject.lines.len() {
        pass_before(subject, cursor, next);
    } else {
        cursor.start = subject.text.len() + 1;
    }
}

/// Goes over the lines that are hidden before a mark, where the marks before it are near none of them. Where the first line that is near it
/// begins is found from the mark on backwards, so that they aren't looked at.
fn pass_before(subject: &Subject<'_>, cursor: &mut Cursor, next: usize)
    requires subject { IsSubject subject.now }
    requires follows { Follows subject.now cursor.old }
    requires no_mark { ¬ HasMark subject.now cursor.old }
    requires hidden { cursor.old.hidden ≡ true }
    requires not_all { subject.now.shown.all ≡ false }
    requires within { next < length subject.now.lines.items }
    requires passed { ArePassedAlike subject.now cursor.old.number next cursor.old.passed }
    ensures same { left subject.now cursor.new ≡ left subject.now cursor.old }
    ensures no_mark { ¬ HasMark subject.now cursor.new }
    ensures on { cursor.old.start ≤ cursor.new.start }
    ensures follows { Follows subject.now cursor.new }
{
    let line = subject.lines[next];
    let near = line.saturating_sub(subject.shown.context);
    if cursor.start < subject.text.len() && cursor.number < near {
        let before = begin_before(subject.text, near - 1, line, subject.order[next].at);
        cursor.start = line_end(subject.text, before) + 1;
        cursor.last = before;
        cursor.number = near;
    }
}
