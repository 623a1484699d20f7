//! A check file before it is written, and how it is.
ghost use Rattle.std.specs.Prelude.{◌≡◌, IfOk};
ghost use Rattle.file_laws.specs.Made.{made_text};
ghost use Rattle.make_checks.specs.Directives.{directive_text, line_text};
ghost use Rattle.make_checks.specs.Made.{lines_in};
ghost use Rattle.tt_pieces.specs.Telling.{Puts};

use crate::directives::{Directive, Left, parted};
use crate::lines::trimmed;
use crate::quoting::put_body;
use std::alloc::Global;
use std::marker::Model;
use tt_base::{Bytes, NoMemory};
use tt_outside::Sink;
use tt_pieces::{Gathered, Pen};

/// A check file, of which a contract sees the bytes. It is written line by line, and takes no memory for them.
#[derive(Drop, Debug)]
pub struct MadeFile {
    /// What is kept of an old one.
    pub(crate) kept: Bytes,
    pub(crate) lead: Bytes,
    /// The canonical output.
    pub(crate) output: Bytes,
}

impl Model for MadeFile {
    ghost use Rattle.std.specs.Prelude.{◌++◌, List, ℕ};
    ghost use Rattle.file_laws.specs.Made.{made_text};
    ghost use Rattle.make_checks.specs.Made.{lines_in, trimmed};

    ghost Value = { List ℕ };

    ghost view = { λ file. file.kept ++ made_text file.lead (lines_in (trimmed file.output)) };
}

/// Tells a directive.
fn put_directive<S: Sink>(pen: &mut Pen, directive: Directive<'_>, sink: &mut S)
    ensures { Puts S.Sink (directive_text directive.entry) pen.old sink.old pen.new sink.new }
{
    match directive {
        Directive::Plain(words) => pen.put(words, sink),
        Directive::Asks(words, line) => {
            pen.put(words, sink);
            put_body(pen, line, sink);
        }
    }
}

/// Tells a directive on a line of its own, behind the lead.
fn put_line<S: Sink>(pen: &mut Pen, lead: &[u8], directive: Directive<'_>, sink: &mut S)
    ensures { Puts S.Sink (line_text lead.now directive.entry) pen.old sink.old pen.new sink.new }
{
    pen.put(lead, sink);
    put_directive(pen, directive, sink);
    pen.put(b"\n", sink);
}

/// Tells the directives of lines.
fn put_made<S: Sink>(pen: &mut Pen, lead: &[u8], lines: &[u8], sink: &mut S)
    ensures { Puts S.Sink (made_text lead.now (lines_in lines.now)) pen.old sink.old pen.new sink.new }
{
    let mut left = Left::Front(lines);
    while let Some((directive, later)) = parted(left) {
        put_line(pen, lead, directive, sink);
        left = later;
    }
}

/// Tells a check file.
pub fn put_file<S: Sink>(pen: &mut Pen, file: &MadeFile, sink: &mut S)
    ensures { Puts S.Sink file.now pen.old sink.old pen.new sink.new }
{
    pen.put(file.kept.as_slice(), sink);
    put_made(
        pen,
        file.lead.as_slice(),
        trimmed(file.output.as_slice()),
        sink,
    );
}

/// The bytes of a check file.
pub(crate) fn bytes_of(alloc: Global, file: &MadeFile) -> Result<Bytes, NoMemory>
    ensures { IfOk result (λ bytes. bytes ≡ file.now) }
{
    let mut pen = Pen::new(alloc);
    let mut sink = Gathered::new(alloc);
    put_file(&mut pen, file, &mut sink);
    match pen.finish(&mut sink) {
        Ok(()) => Ok(sink.into_bytes()),
        Err(_) => Err(NoMemory),
    }
}
