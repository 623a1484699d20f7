//! A line as the body of a directive.
ghost use Rattle.std.specs.Prelude.{◌≡◌, true};
ghost use Rattle.quote_laws.specs.Quote.{body_of, quote, quote_byte};
ghost use Rattle.make_checks.specs.Made.{is_quoted};
ghost use Rattle.tt_pieces.specs.Telling.{Puts};

use memchr::memchr2;
use tt_outside::Sink;
use tt_pieces::Pen;

/// What stands for one of the two bytes at which a block or an expression could begin.
pub(crate) fn quoted(byte: u8) -> &'static [u8]
    ensures { is_quoted byte ≡ true → result.now ≡ quote_byte byte }
{
    if byte == b'[' { b"{{\\[}}" } else { b"{{[{]}}" }
}

/// Tells what stands for a line.
fn put_quoted<S: Sink>(pen: &mut Pen, line: &[u8], sink: &mut S)
    ensures { Puts S.Sink (quote line.now) pen.old sink.old pen.new sink.new }
{
    let mut rest = line;
    while let Some(at) = memchr2(b'[', b'{', rest) {
        pen.put(&rest[..at], sink);
        pen.put(quoted(rest[at]), sink);
        rest = &rest[at + 1..];
    }
    pen.put(rest, sink);
}

/// Tells the body of a line: what stands for it, between two anchors.
pub(crate) fn put_body<S: Sink>(pen: &mut Pen, line: &[u8], sink: &mut S)
    ensures { Puts S.Sink (body_of line.now) pen.old sink.old pen.new sink.new }
{
    pen.put(b"{{^}}", sink);
    put_quoted(pen, line, sink);
    pen.put(b"{{$}}", sink);
}
