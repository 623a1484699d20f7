//! Pieces of a text, one behind the other.
ghost use Rattle.std.specs.Prelude.{◌≡◌, ◌++◌, OnOk, [], replicate};
ghost use Rattle.std.specs.Fmt.{decimal};
ghost use Rattle.tt_pieces.specs.Pieces.{bytes_in, bytes_of};

use crate::piece::TextPiece;
use std::alloc::Global;
use std::marker::Model;
use tt_base::NoMemory;

/// A text in pieces, of which a contract sees the bytes.
#[derive(Drop, Debug)]
pub struct Pieces<'a> {
    held: Vec<TextPiece<'a>>,
}

impl<'a> Model for Pieces<'a> {
    ghost use Rattle.std.specs.Prelude.{List, ℕ};
    ghost use Rattle.tt_pieces.specs.Pieces.{bytes_in};

    ghost Value = { List ℕ };

    ghost view = { λ pieces. bytes_in pieces.held.items };
}

impl<'a> Pieces<'a> {
    /// No pieces. It takes no memory.
    pub fn new(alloc: Global) -> Pieces<'a>
        ensures { result ≡ [] }
    {
        Pieces {
            held: Vec::new(alloc),
        }
    }

    /// Adds a piece at the end.
    pub fn push(&mut self, piece: TextPiece<'a>) -> Result<(), NoMemory>
        ensures { OnOk result (self.new ≡ self.old ++ bytes_of piece.entry) }
    {
        match self.held.push(piece) {
            Ok(()) => Ok(()),
            Err(_) => Err(NoMemory),
        }
    }

    /// Adds bytes, which aren't copied.
    pub fn append(&mut self, bytes: &'a [u8]) -> Result<(), NoMemory>
        ensures { OnOk result (self.new ≡ self.old ++ bytes.now) }
    {
        self.push(TextPiece::Bytes(bytes))
    }

    /// Adds a number in decimal digits.
    pub fn append_number(&mut self, number: u64) -> Result<(), NoMemory>
        ensures { OnOk result (self.new ≡ self.old ++ decimal number) }
    {
        self.push(TextPiece::Number(number))
    }

    /// Adds so many blanks.
    pub fn append_blanks(&mut self, count: usize) -> Result<(), NoMemory>
        ensures { OnOk result (self.new ≡ self.old ++ replicate count 32) }
    {
        self.push(TextPiece::Blanks(count))
    }

    /// The pieces, in order.
    pub(crate) fn as_slice(&self) -> &[TextPiece<'a>]
        ensures { bytes_in result.now ≡ self.now }
    {
        self.held.as_slice()
    }
}
