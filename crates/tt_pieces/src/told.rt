//! Pieces, told one behind the other.
ghost use Rattle.tt_pieces.specs.Pieces.{bytes_in, bytes_of};
ghost use Rattle.tt_pieces.specs.Telling.{Puts};

use crate::pen::Pen;
use crate::piece::TextPiece;
use crate::pieces::Pieces;
use tt_outside::Sink;

/// Tells a piece.
fn put_piece<S: Sink>(pen: &mut Pen, piece: &TextPiece<'_>, sink: &mut S)
    ensures { Puts S.Sink (bytes_of piece.now) pen.old sink.old pen.new sink.new }
{
    match piece {
        TextPiece::Bytes(bytes) => pen.put(bytes, sink),
        TextPiece::Number(number) => pen.put_number(*number, sink),
        TextPiece::Blanks(count) => pen.put_blanks(*count, sink),
    }
}

/// Tells pieces in order.
fn put_each<S: Sink>(pen: &mut Pen, pieces: &[TextPiece<'_>], sink: &mut S)
    ensures { Puts S.Sink (bytes_in pieces.now) pen.old sink.old pen.new sink.new }
{
    for piece in pieces {
        put_piece(pen, piece, sink);
    }
}

/// Tells a text.
pub fn put_pieces<S: Sink>(pen: &mut Pen, pieces: &Pieces<'_>, sink: &mut S)
    ensures { Puts S.Sink pieces.now pen.old sink.old pen.new sink.new }
{
    put_each(pen, pieces.as_slice(), sink);
}
