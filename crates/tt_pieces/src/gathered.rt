//! Memory to write to, as much as there is.
ghost use Rattle.std.specs.Prelude.{◌≡◌, [], Some};
ghost use Rattle.tt_pieces.specs.Gathered.{faults_of, gathered_in};

use std::alloc::Global;
use tt_base::Bytes;
use tt_outside::{Failed, Sink};

/// A sink that keeps what it takes. A write fails for want of memory alone.
#[derive(Drop, Debug)]
pub struct Gathered {
    pub(crate) bytes: Bytes,
    pub(crate) faults: u64,
}

impl Gathered {
    /// An empty one. It takes no memory.
    pub fn new(alloc: Global) -> Gathered
        ensures { gathered_in result ≡ Some [] }
    {
        Gathered {
            bytes: Bytes::new(alloc),
            faults: 0,
        }
    }

    /// What was written.
    pub fn into_bytes(self) -> Bytes
        ensures { Some result ≡ gathered_in self }
    {
        self.bytes
    }
}

impl Sink for Gathered {
    ghost held = { λ sink. gathered_in sink };

    ghost faults = { λ sink. faults_of sink };

    fn write(&mut self, piece: &[u8]) -> Result<usize, Failed> {
        if piece.is_empty() {
            return Ok(0);
        }
        match self.bytes.append(piece) {
            Ok(()) => Ok(piece.len()),
            Err(_) => {
                self.faults = self.faults.saturating_add(1);
                Err(Failed)
            }
        }
    }
}
