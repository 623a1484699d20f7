//! What was read of a stream, with room for more behind it: the system puts bytes where they stay.
ghost use Rattle.std.specs.Prelude.{◌≡◌, ◌++◌, ◌≤◌, ◌+◌, [], List, ℕ, IfOk, OnErr, OnOk, drop, length, take};
ghost use Rattle.std.specs.Io.KnownBytes.{Consumes, Keeps};

use std::alloc::Global;
use std::io::{ErrorKind, Read};
use std::marker::Model;

/// For how many bytes there is room at first.
const FIRST: usize = 256;

/// For how many there is room before each read, at most: as many as a pipe holds.
pub(crate) const PIECE: usize = 1 << 16;

/// Bytes that were read. Behind them stand zeros, in whose place the next ones come.
#[derive(Drop)]
pub(crate) struct ReadBuffer {
    bytes: Vec<u8>,
    read: usize,
}

impl Model for ReadBuffer {
    ghost use Rattle.std.specs.Prelude.{◌≤◌, List, ℕ, length, take};

    ghost Value = { List ℕ };

    ghost view = { λ buffer. take buffer.read buffer.bytes.items };

    ghost invariant = { λ buffer. buffer.read ≤ length buffer.bytes.items };
}

/// Reads once behind a front, which stays, and tells how many bytes.
fn read_behind<R: Read>(reader: &mut R, bytes: &mut [u8], front: usize) -> Result<usize, ErrorKind>
    requires { front ≤ length bytes.old }
    ensures front { take front bytes.new ≡ take front bytes.old }
    ensures fits { IfOk result (λ count. front + count ≤ length bytes.new) }
    ensures read { IfOk result (λ count. Consumes (R.remaining reader.old) (R.remaining reader.new)
        (take count (drop front bytes.new))) }
    ensures kept { OnErr result (Keeps (R.remaining reader.old) (R.remaining reader.new)) }
{
    match reader.read(&mut bytes[front..]) {
        Ok(count) => Ok(count),
        Err(error) => Err(error.kind()),
    }
}

impl ReadBuffer {
    /// Nothing was read. It takes no memory.
    pub(crate) fn new(alloc: Global) -> ReadBuffer
        ensures { result ≡ [] }
    {
        ReadBuffer {
            bytes: Vec::new(alloc),
            read: 0,
        }
    }

    /// How many bytes were read.
    pub(crate) fn len(&self) -> usize
        ensures { result ≡ length self.now }
    {
        self.read
    }

    /// Makes room for as many bytes as were read, within bounds.
    fn make_room(&mut self) -> Result<(), ErrorKind>
        ensures { self.new ≡ self.old }
    {
        let due = self.read.max(FIRST).min(PIECE);
        if self.bytes.len() - self.read >= due {
            return Ok(());
        }
        match self.bytes.resize(self.read.saturating_add(due), 0) {
            Ok(_) => Ok(()),
            Err(_) => Err(ErrorKind::OutOfMemory),
        }
    }

    /// Reads once, and tells whether more may come.
    pub(crate) fn read_from<R: Read>(&mut self, reader: &mut R) -> Result<bool, ErrorKind>
        ensures { OnOk result ((read : List ℕ) × (self.new ≡ self.old ++ read)
            × Consumes (R.remaining reader.old) (R.remaining reader.new) read) }
    {
        self.make_room()?;
        match read_behind(reader, self.bytes.as_mut_slice(), self.read) {
            Ok(count) => {
                self.read += count;
                Ok(count > 0)
            }
            Err(ErrorKind::Interrupted) => Ok(true),
            Err(kind) => Err(kind),
        }
    }

    /// What was read, without the room behind it.
    pub(crate) fn into_vec(self) -> Vec<u8>
        ensures { result.items ≡ self }
    {
        let ReadBuffer { mut bytes, read } = self;
        bytes.truncate(read);
        bytes.shrink_to_fit();
        bytes
    }
}
