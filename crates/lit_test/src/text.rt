//! The text of a transcript, in pieces: what a command wrote is shared with its reply, and joined only where a report is written.
ghost use Rattle.std.specs.Prelude.{◌≡◌, ◌++◌, [], OnErr, OnOk};
ghost use Rattle.std.specs.List.{flat_map};
ghost use Rattle.lit_test.specs.Text.{piece_bytes};

use std::alloc::Global;
use std::marker::Model;
use std::mem;
use tt_base::{Bytes, NoMemory};
use tt_outside::SharedBytes;

/// From so many bytes on, bytes are shared and not copied: a piece costs about as much as copying these.
const LONG: usize = 1024;

/// A piece of a text: bytes of its own, and behind them bytes that others hold too.
#[derive(Drop, Debug)]
pub struct Piece {
    own: Bytes,
    shared: SharedBytes,
}

/// A text, of which a contract sees the bytes.
#[derive(Drop, Debug)]
pub struct Text {
    pieces: Vec<Piece>,
    /// What stands behind the pieces.
    last: Bytes,
}

impl Model for Text {
    ghost use Rattle.std.specs.Prelude.{◌++◌, List, ℕ};
    ghost use Rattle.std.specs.List.{flat_map};
    ghost use Rattle.lit_test.specs.Text.{piece_bytes};

    ghost Value = { List ℕ };

    ghost view = { λ text. flat_map piece_bytes text.pieces.items ++ text.last };
}

impl Text {
    /// No bytes. It takes no memory.
    pub fn new(alloc: Global) -> Text
        ensures { result ≡ [] }
    {
        Text {
            pieces: Vec::new(alloc),
            last: Bytes::new(alloc),
        }
    }

    /// Adds a copy of a slice at the end.
    #[tactic(auto, using(crate::proofs::PieceLemmas::longer_last))]
    pub fn append(&mut self, bytes: &[u8]) -> Result<(), NoMemory>
        ensures ok { OnOk result (self.new ≡ self.old ++ bytes.now) }
        ensures err { OnErr result (self.new ≡ self.old) }
    {
        self.last.append(bytes)
    }

    /// Adds bytes at the end, without a copy where there are many.
    #[tactic(auto, using(crate::proofs::PieceLemmas::one_more_piece))]
    pub fn append_shared(&mut self, alloc: Global, bytes: &SharedBytes) -> Result<(), NoMemory>
        ensures ok { OnOk result (self.new ≡ self.old ++ bytes.now) }
        ensures err { OnErr result (self.new ≡ self.old) }
    {
        if bytes.len() < LONG {
            return self.append(bytes.as_slice());
        }
        let shared = bytes.share()?;
        if self.pieces.reserve(1).is_err() {
            return Err(NoMemory);
        }
        let own = mem::replace(&mut self.last, Bytes::new(alloc));
        self.pieces.push_reserved(Piece { own, shared });
        Ok(())
    }

    /// Adds it to bytes.
    #[tactic(auto, using(crate::proofs::PieceLemmas::none_behind))]
    pub fn add_to(&self, bytes: &mut Bytes) -> Result<(), NoMemory>
        ensures { OnOk result (bytes.new ≡ bytes.old ++ self.now) }
    {
        add_pieces(bytes, self.pieces.as_slice())?;
        bytes.append(self.last.as_slice())
    }
}

/// Adds pieces to bytes.
fn add_pieces(bytes: &mut Bytes, pieces: &[Piece]) -> Result<(), NoMemory>
    ensures { OnOk result (bytes.new ≡ bytes.old ++ flat_map piece_bytes pieces.now) }
{
    for piece in pieces {
        bytes.append(piece.own.as_slice())?;
        bytes.append(piece.shared.as_slice())?;
    }
    Ok(())
}
