//! An answer before it is written, and how it is.
ghost use Rattle.std.specs.Prelude.{◌≡◌, ◌≤◌, [], IfOk, OnOk};
ghost use Rattle.filecheck_messages.specs.Telling.{answer_of, bytes_of, rest_text};
ghost use Rattle.tt_pieces.specs.Telling.{Ends, IsIdle, Puts};
ghost use Rattle.tt_run.specs.Frame.{cannot_write};
ghost use Rattle.tt_run.specs.Run.{Answered, Written, stream_of};

use input_dump::{Rows, put_dump};
use make_checks::{MadeFile, put_file};
use std::alloc::Global;
use std::marker::Model;
use tt_base::{Bytes, NoMemory};
use tt_outside::{Failed, Sink};
use tt_pieces::{Gathered, Pen, Pieces, put_pieces};
use tt_run::{Answer, ToolFrame};

/// What stands behind the pieces of a text.
#[derive(Drop)]
pub(crate) enum Rest<'a> {
    Nothing,
    /// The rows of an annotated input, in their frame.
    Rows(Rows<'a>),
    /// A check file that was made.
    File(&'a MadeFile),
}

/// The text for a stream, of which a contract sees the bytes.
#[derive(Drop)]
pub(crate) struct Text<'a> {
    pub(crate) pieces: Pieces<'a>,
    pub(crate) rest: Rest<'a>,
}

/// A text of pieces.
pub(crate) fn pieces_alone<'a>(pieces: Pieces<'a>) -> Text<'a>
    ensures { bytes_of result ≡ pieces.entry }
{
    Text {
        pieces,
        rest: Rest::Nothing,
    }
}

/// No text. It takes no memory.
pub(crate) fn no_text<'a>(alloc: Global) -> Text<'a>
    ensures { bytes_of result ≡ [] }
{
    pieces_alone(Pieces::new(alloc))
}

/// The texts for the two streams, and the status, of which a contract sees the answer. It has all memory that writing needs.
#[derive(Drop)]
pub struct Telling<'a> {
    out: Text<'a>,
    err: Text<'a>,
    status: u8,
    pen: Pen,
}

impl<'a> Model for Telling<'a> {
    ghost use Rattle.filecheck_messages.specs.Telling.{answer_of};
    ghost use Rattle.tt_pieces.specs.Telling.{IsIdle};
    ghost use Rattle.tt_run.specs.declared.answer.Answer.{Answer};

    ghost Value = { Answer };

    ghost view = { λ telling. answer_of telling.out telling.err telling.status };

    ghost invariant = { λ telling. IsIdle telling.pen };
}

/// An answer of texts. It takes no memory.
pub(crate) fn telling_of<'a>(alloc: Global, out: Text<'a>, err: Text<'a>, status: u8) -> Telling<'a>
    ensures { result ≡ answer_of out.entry err.entry status }
{
    Telling {
        out,
        err,
        status,
        pen: Pen::new(alloc),
    }
}

/// Tells what stands behind pieces.
fn put_rest<S: Sink>(pen: &mut Pen, rest: &mut Rest<'_>, sink: &mut S)
    ensures { Puts S.Sink (rest_text rest.old) pen.old sink.old pen.new sink.new }
{
    match rest {
        Rest::Nothing => {}
        Rest::Rows(rows) => put_dump(pen, rows, sink),
        Rest::File(file) => put_file(pen, file, sink),
    }
}

/// Writes a text.
fn write_text<S: Sink>(pen: &mut Pen, text: &mut Text<'_>, sink: &mut S) -> Result<(), Failed>
    requires { IsIdle pen.old }
    ensures ends { Ends (bytes_of text.old) (stream_of S.Sink sink.old sink.new) result }
    ensures idle { OnOk result (IsIdle pen.new) }
{
    put_pieces(pen, &text.pieces, sink);
    put_rest(pen, &mut text.rest, sink);
    pen.finish(sink)
}

/// Writes what is told, and answers the status, or 3 where the stream fails.
fn write_told<E: Sink>(pen: &mut Pen, text: &mut Text<'_>, status: u8, err: &mut E) -> u8
    requires idle { IsIdle pen.old }
    requires small { status ≤ 3 }
    ensures answered { Answered (bytes_of text.old) status result (stream_of E.Sink err.old err.new) }
    ensures range { result ≤ 3 }
{
    match write_text(pen, text, err) {
        Ok(()) => status,
        Err(Failed) => 3,
    }
}

/// A text, joined.
fn gathered(alloc: Global, pen: &mut Pen, text: &mut Text<'_>) -> Result<Bytes, NoMemory>
    requires { IsIdle pen.old }
    ensures value { IfOk result (λ bytes. bytes ≡ bytes_of text.old) }
    ensures idle { OnOk result (IsIdle pen.new) }
{
    let mut sink = Gathered::new(alloc);
    match write_text(pen, text, &mut sink) {
        Ok(()) => Ok(sink.into_bytes()),
        Err(Failed) => Err(NoMemory),
    }
}

impl<'a> Telling<'a> {
    /// Writes the answer of a tool, and answers its status, or 3 where a stream fails. It does so where there is no more memory, too.
    pub fn write<O: Sink, E: Sink>(self, frame: ToolFrame, out: &mut O, err: &mut E) -> u8
        requires { self.status ≤ 3 }
        ensures written { Written (cannot_write frame.name.now) self.entry result
            (stream_of O.Sink out.old out.new) (stream_of E.Sink err.old err.new) }
        ensures range { result ≤ 3 }
    {
        let Telling {
            out: mut told,
            err: mut messages,
            status,
            mut pen,
        } = self;
        match write_text(&mut pen, &mut told, out) {
            Err(Failed) => frame.cannot_write(err),
            Ok(()) => write_told(&mut pen, &mut messages, status, err),
        }
    }

    /// The answer, whose texts are joined.
    pub fn joined(self, alloc: Global) -> Result<Answer, NoMemory>
        ensures { IfOk result (λ answer. answer ≡ self.entry) }
    {
        let Telling {
            out: mut told,
            err: mut messages,
            status,
            mut pen,
        } = self;
        let out = gathered(alloc, &mut pen, &mut told)?;
        let err = gathered(alloc, &mut pen, &mut messages)?;
        Ok(Answer { out, err, status })
    }
}
