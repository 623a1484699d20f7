//! The rows of a dump, and how each is told.
ghost use Rattle.input_dump.specs.Rows.{gap_row, line_row, mark_row_at, right, row_bytes, sign_text};
ghost use Rattle.tt_pieces.specs.Telling.{Puts};

use crate::marking::Mark;
use itoa::Buffer;
use tt_outside::Sink;
use tt_pieces::Pen;

/// A row of a dump, whose numbers of lines are so wide.
#[derive(Drop, Debug)]
pub enum Row<'a> {
    /// A line with its number.
    Line(usize, u64, &'a [u8]),
    /// A mark that stands behind so many bytes of its line.
    Mark(usize, usize, &'a Mark),
    /// Lines that aren't shown.
    Gap(usize),
}

/// Tells a word that ends at a column.
fn put_right<S: Sink>(pen: &mut Pen, width: usize, word: &[u8], sink: &mut S)
    ensures { Puts S.Sink (right width word.now) pen.old sink.old pen.new sink.new }
{
    pen.put_blanks(width.saturating_sub(word.len()), sink);
    pen.put(word, sink);
}

/// Tells the row of a line.
fn put_line<S: Sink>(pen: &mut Pen, width: usize, number: u64, line: &[u8], sink: &mut S)
    ensures { Puts S.Sink (line_row width number line.now) pen.old sink.old pen.new sink.new }
{
    let mut digits = Buffer::new();
    put_right(pen, width, digits.format(number).as_bytes(), sink);
    pen.put(b": ", sink);
    pen.put(line, sink);
    pen.put(b"\n", sink);
}

/// Tells the sign of a mark and what is told of it.
fn put_sign<S: Sink>(pen: &mut Pen, mark: &Mark, sink: &mut S)
    ensures { Puts S.Sink (sign_text mark.now) pen.old sink.old pen.new sink.new }
{
    pen.put(&[mark.sign], sink);
    pen.put(b" ", sink);
    pen.put(mark.text.as_slice(), sink);
    pen.put(b"\n", sink);
}

/// Tells the row of a mark.
fn put_mark<S: Sink>(pen: &mut Pen, width: usize, before: usize, mark: &Mark, sink: &mut S)
    ensures { Puts S.Sink (mark_row_at width before mark.now) pen.old sink.old pen.new sink.new }
{
    pen.put_blanks(width, sink);
    pen.put(b"  ", sink);
    pen.put_blanks(before, sink);
    put_sign(pen, mark, sink);
}

/// Tells the row of lines that aren't shown.
fn put_gap<S: Sink>(pen: &mut Pen, width: usize, sink: &mut S)
    ensures { Puts S.Sink (gap_row width) pen.old sink.old pen.new sink.new }
{
    put_right(pen, width, b"...", sink);
    pen.put(b"\n", sink);
}

/// Tells a row.
pub(crate) fn put_row<S: Sink>(pen: &mut Pen, row: &Row<'_>, sink: &mut S)
    ensures { Puts S.Sink (row_bytes row.now) pen.old sink.old pen.new sink.new }
{
    match row {
        Row::Line(width, number, line) => put_line(pen, *width, *number, line, sink),
        Row::Mark(width, before, mark) => put_mark(pen, *width, *before, mark, sink),
        Row::Gap(width) => put_gap(pen, *width, sink),
    }
}
