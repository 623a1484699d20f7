//! What writes a message by way of a buffer.
ghost use Rattle.std.specs.Prelude.{◌≡◌, [], true, OnErr, OnOk, replicate};
ghost use Rattle.std.specs.Fmt.{decimal};
ghost use Rattle.tt_pieces.specs.Telling.{Finishes, Flushes, IsIdle, Puts, Writes, seen, state, with_kept};

use itoa::Buffer;
use std::alloc::Global;
use tt_outside::{Failed, Sink, write_all};

/// How many bytes wait at most.
const ROOM: usize = 65536;

/// A run of blanks.
const BLANKS: &[u8] = b"                                                                ";

/// A buffer for what is told, and whether a write failed. It grows up to 64 KiB as long as there is memory; else it is written sooner. A
/// message is told part by part to one stream, and what still waits is written at its end.
#[derive(Drop, Debug)]
pub struct Pen {
    pub(crate) waiting: Vec<u8>,
    pub(crate) failed: bool,
}

/// Writes a piece where nothing waits before it, unless a write failed; and answers whether one did.
fn write_unless<S: Sink>(failed: bool, piece: &[u8], sink: &mut S) -> bool
    ensures { Writes piece.now failed (seen S.Sink sink.old) result (seen S.Sink sink.new) }
{
    if failed {
        return true;
    }
    match write_all(sink, piece) {
        Ok(()) => false,
        Err(Failed) => true,
    }
}

impl Pen {
    /// A pen with which nothing is told yet. It takes no memory.
    pub fn new(alloc: Global) -> Pen
        ensures { IsIdle result }
    {
        Pen {
            waiting: Vec::new(alloc),
            failed: false,
        }
    }

    /// Writes what waits.
    fn flush<S: Sink>(&mut self, sink: &mut S)
        ensures told { Flushes (state S.Sink self.old sink.old) (state S.Sink self.new sink.new) }
        ensures empty { self.new.waiting.items ≡ [] }
    {
        self.failed = write_unless(self.failed, self.waiting.as_slice(), sink);
        self.waiting.clear();
    }

    /// Keeps a piece for later, if there is room for it.
    fn keep(&mut self, piece: &[u8]) -> bool
        ensures failed { self.new.failed ≡ self.old.failed }
        ensures waiting { self.new.waiting.items ≡ with_kept result self.old.waiting.items piece.now }
    {
        self.waiting.len().saturating_add(piece.len()) <= ROOM
            && self.waiting.extend_from_slice(piece).is_ok()
    }

    /// Tells bytes.
    pub fn put<S: Sink>(&mut self, piece: &[u8], sink: &mut S)
        ensures { Puts S.Sink piece.now self.old sink.old self.new sink.new }
    {
        if self.keep(piece) {
            return;
        }
        self.flush(sink);
        self.failed = write_unless(self.failed, piece, sink);
    }

    /// Tells a number in decimal digits.
    pub fn put_number<S: Sink>(&mut self, number: u64, sink: &mut S)
        ensures { Puts S.Sink (decimal number) self.old sink.old self.new sink.new }
    {
        let mut digits = Buffer::new();
        self.put(digits.format(number).as_bytes(), sink);
    }

    /// Tells so many blanks.
    pub fn put_blanks<S: Sink>(&mut self, count: usize, sink: &mut S)
        ensures { Puts S.Sink (replicate count 32) self.old sink.old self.new sink.new }
    {
        let mut left = count;
        while left > BLANKS.len() {
            self.put(BLANKS, sink);
            left -= BLANKS.len();
        }
        self.put(&BLANKS[..left], sink);
    }

    /// Ends a message: what waits is written. An error means that a write failed.
    pub fn finish<S: Sink>(&mut self, sink: &mut S) -> Result<(), Failed>
        ensures ends { Finishes (state S.Sink self.old sink.old) result (seen S.Sink sink.new) }
        ensures idle { OnOk result (IsIdle self.new) }
        ensures failed { OnErr result (self.new.failed ≡ true) }
    {
        self.flush(sink);
        if self.failed { Err(Failed) } else { Ok(()) }
    }
}
