//! An answer, and how it is written.
ghost use Rattle.std.specs.Prelude.{◌≤◌};
ghost use Rattle.tt_run.specs.Frame.{cannot_write};
ghost use Rattle.tt_run.specs.Run.{Answered, Written, stream_of};

use crate::frame::ToolFrame;
use tt_base::Bytes;
use tt_outside::{Sink, write_all};

/// The bytes for the two streams, and the status.
#[derive(Drop, Debug)]
pub struct Answer {
    pub out: Bytes,
    pub err: Bytes,
    pub status: u8,
}

impl Answer {
    /// Writes the answer of a tool, and answers its status, or 3 where a stream fails.
    pub fn write<O: Sink, E: Sink>(&self, frame: ToolFrame, out: &mut O, err: &mut E) -> u8
        requires { self.now.status ≤ 3 }
        ensures written { Written (cannot_write frame.name.now) self.now result
            (stream_of O.Sink out.old out.new) (stream_of E.Sink err.old err.new) }
        ensures range { result ≤ 3 }
    {
        if write_all(out, self.out.as_slice()).is_err() {
            return frame.cannot_write(err);
        }
        answer_on(self.err.as_slice(), self.status, err)
    }
}

/// Writes a message, and answers the status, or 3 where the stream fails. It takes no memory.
pub fn answer_on<E: Sink>(message: &[u8], status: u8, err: &mut E) -> u8
    requires { status ≤ 3 }
    ensures answered { Answered message.now status result (stream_of E.Sink err.old err.new) }
    ensures range { result ≤ 3 }
{
    match write_all(err, message) {
        Ok(()) => status,
        Err(_) => 3,
    }
}
