//! Messages that are told in parts, which takes no memory.
ghost use Rattle.std.specs.Prelude.{◌≤◌, OnErr, OnOk};
ghost use Rattle.tt_run.specs.Parts.{joined};
ghost use Rattle.tt_run.specs.Run.{Answered, Stopped, Taken, Told, stream_of};

use tt_outside::{Failed, Sink, write_all};

/// Writes the parts of a message one behind the other.
fn write_parts<E: Sink>(parts: &[&[u8]], err: &mut E) -> Result<(), Failed>
    ensures taken { OnOk result (Taken (joined parts.now) (stream_of E.Sink err.old err.new)) }
    ensures stopped { OnErr result (Stopped (joined parts.now) (stream_of E.Sink err.old err.new)) }
{
    for part in parts {
        match write_all(err, part) {
            Ok(()) => {}
            Err(Failed) => return Err(Failed),
        }
    }
    Ok(())
}

/// Writes the parts of a message one behind the other, and answers the status, or 3 where the stream fails. It takes
/// no memory.
pub fn answer_parts<E: Sink>(parts: &[&[u8]], status: u8, err: &mut E) -> u8
    requires { status ≤ 3 }
    ensures answered { Answered (joined parts.now) status result (stream_of E.Sink err.old err.new) }
    ensures range { result ≤ 3 }
{
    match write_parts(parts, err) {
        Ok(()) => status,
        Err(_) => 3,
    }
}

/// Writes the parts of a message one behind the other, as far as the stream takes them. It takes no memory.
pub(crate) fn tell_parts<E: Sink>(parts: &[&[u8]], err: &mut E)
    ensures { Told (joined parts.now) (stream_of E.Sink err.old err.new) }
{
    let _ = write_parts(parts, err);
}
