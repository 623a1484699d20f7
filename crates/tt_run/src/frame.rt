//! What every tool tells in the same words, under its own name.
ghost use Rattle.std.specs.Prelude.{◌≡◌, ◌≤◌};
ghost use Rattle.tt_run.specs.Frame.{cannot_write, not_text, out_of_memory};
ghost use Rattle.tt_run.specs.Run.{Answered, Told, stream_of};

use crate::parts::{answer_parts, tell_parts};
use tt_outside::Sink;

/// The name under which a tool tells what goes wrong. What every tool tells in the same words takes no memory.
#[derive(Clone, Copy, Debug)]
pub struct ToolFrame {
    pub name: &'static [u8],
}

impl ToolFrame {
    /// Tells that a stream can't be written, as far as `err` takes it, and answers 3.
    pub fn cannot_write<E: Sink>(self, err: &mut E) -> u8
        ensures status { result ≡ 3 }
        ensures told { Told (cannot_write self.name.now) (stream_of E.Sink err.old err.new) }
    {
        tell_parts(&[self.name, b": error: cannot write\n"], err);
        3
    }

    /// Tells the want of memory, as far as `err` takes it, and answers 4.
    pub fn out_of_memory<E: Sink>(self, err: &mut E) -> u8
        ensures status { result ≡ 4 }
        ensures told { Told (out_of_memory self.name.now) (stream_of E.Sink err.old err.new) }
    {
        tell_parts(&[self.name, b": error: out of memory\n"], err);
        4
    }

    /// Tells that a word isn't text, and answers 2, or 3 where `err` fails.
    pub fn not_text<E: Sink>(self, err: &mut E) -> u8
        ensures answered { Answered (not_text self.name.now) 2 result (stream_of E.Sink err.old err.new) }
        ensures range { result ≤ 3 }
    {
        answer_parts(&[self.name, b": error: a word isn't text\n"], 2, err)
    }
}
