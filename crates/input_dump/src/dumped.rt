//! A whole dump.
ghost use Rattle.std.specs.Prelude.{◌≡◌, ◌≤◌, ◌^◌, ◌++◌, [], All, IfOk, codes, length};
ghost use Rattle.input_dump.specs.Dump.{dump, framed};
ghost use Rattle.tt_pieces.specs.Telling.{Puts};

use crate::marking::Mark;
use crate::row::put_row;
use crate::rows::Rows;
use crate::shown::Shown;
use std::alloc::Global;
use tt_base::{Bytes, NoMemory};
use tt_outside::Sink;
use tt_pieces::{Gathered, Pen};

/// What stands before the rows of a dump.
pub const HEAD: &[u8] = b"Input was:\n<<<<<<\n";

/// What stands behind them.
pub const TAIL: &[u8] = b">>>>>>\n";

/// Tells the rows that are left, one behind the other.
fn put_rows<S: Sink>(pen: &mut Pen, rows: &mut Rows<'_>, sink: &mut S)
    ensures { Puts S.Sink rows.old pen.old sink.old pen.new sink.new }
{
    while let Some(row) = rows.next_row() {
        put_row(pen, &row, sink);
    }
}

/// Tells rows in their frame.
pub fn put_dump<S: Sink>(pen: &mut Pen, rows: &mut Rows<'_>, sink: &mut S)
    ensures { Puts S.Sink (framed rows.old) pen.old sink.old pen.new sink.new }
{
    pen.put(HEAD, sink);
    put_rows(pen, rows, sink);
    pen.put(TAIL, sink);
}

/// A text with its marks below its lines, in a frame.
pub fn dump(alloc: Global, text: &[u8], marks: &[Mark], shown: &Shown) -> Result<Bytes, NoMemory>
    requires short { length text.now ≤ 2 ^ 30 }
    requires within { All (λ mark. mark.at ≤ length text.now) marks.now }
    ensures { IfOk result (λ told. told ≡ dump text.now marks.now shown.now) }
{
    let mut rows = Rows::new(alloc, text, marks, shown)?;
    let mut pen = Pen::new(alloc);
    let mut sink = Gathered::new(alloc);
    put_dump(&mut pen, &mut rows, &mut sink);
    match pen.finish(&mut sink) {
        Ok(()) => Ok(sink.into_bytes()),
        Err(_) => Err(NoMemory),
    }
}
