//! What a hand makes of what the system told of a program.
ghost use Rattle.std.specs.Prelude.{◌≡◌, ◌≤◌, IfOk, length, true};
ghost use Rattle.std.specs.IoError.{error_kind, raw_os_error};
ghost use Rattle.std.specs.Process.{exit_code, exit_signal};
ghost use Rattle.tt_real.specs.Reply.{GivesReply, finish_fed, finish_of, fits_program, past_or, refused_reply, reply_of, told_of};

use std::io::{Error, ErrorKind};
use std::os::unix::process::ExitStatusExt;
use std::process::ExitStatus;
use tt_base::NoMemory;
use tt_outside::{Finish, Reply, SharedBytes, Stream};

/// What reading a program's two streams came to.
#[derive(Clone, Copy, Debug, PartialEq, Eq)]
pub(crate) enum Told {
    /// Both were read to their ends.
    Whole,
    /// The output has more bytes than the limit.
    OutPast,
    /// The errors have, and the output has not.
    ErrPast,
    Failed,
    NoMemory,
}

/// What reading both streams came to, where it ended by a fault of a kind, or by none, and gave these bytes.
pub(crate) fn told_of(fault: Option<ErrorKind>, out: &[u8], err: &[u8], limit: u64) -> Told
    ensures value { result ≡ told_of fault out.now err.now limit }
    ensures whole { result ≡ Told.Whole → (length out.now ≤ limit) × (length err.now ≤ limit) }
{
    let other = match fault {
        None => Told::Whole,
        Some(ErrorKind::OutOfMemory) => Told::NoMemory,
        Some(_) => return Told::Failed,
    };
    past_or(other, out, err, limit)
}

/// Which stream passes the limit, or what else is so.
fn past_or(other: Told, out: &[u8], err: &[u8], limit: u64) -> Told
    ensures value { result ≡ past_or other out.now err.now limit }
    ensures whole { result ≡ Told.Whole → (length out.now ≤ limit) × (length err.now ≤ limit) }
{
    if out.len() as u64 > limit {
        return Told::OutPast;
    }
    if err.len() as u64 > limit {
        return Told::ErrPast;
    }
    other
}

/// How a program ended.
pub(crate) fn finish_of(status: ExitStatus) -> Option<Finish>
    ensures { result ≡ finish_of (exit_code status) (exit_signal status) }
{
    if let Some(code) = status.code() {
        return match u8::try_from(code) {
            Ok(code) => Some(Finish::Code(code)),
            Err(_) => None,
        };
    }
    match u8::try_from(status.signal()?) {
        Ok(signal) => Some(Finish::Signal(signal)),
        Err(_) => None,
    }
}

/// How a program ended, if its input was taken, or it stopped reading.
pub(crate) fn finish_fed(fault: Option<ErrorKind>, finish: Option<Finish>) -> Option<Finish>
    ensures { result ≡ finish_fed fault finish }
{
    match fault {
        None | Some(ErrorKind::BrokenPipe) => finish,
        Some(_) => None,
    }
}

/// The reply to a program that was fed, read and waited for.
pub(crate) fn reply_of(
    told: Told,
    finish: Option<Finish>,
    out: SharedBytes,
    err: SharedBytes,
    limit: u64,
) -> Result<Reply, NoMemory>
    requires { told ≡ Told.Whole → (length out ≤ limit) × (length err ≤ limit) }
    ensures value { GivesReply (reply_of told finish out err) result }
    ensures fit { IfOk result (λ reply. fits_program limit reply ≡ true) }
{
    match (told, finish) {
        (Told::Whole, Some(finish)) => Ok(Reply::Status { finish, out, err }),
        (Told::OutPast, Some(_)) => Ok(Reply::TooLarge(Stream::Out)),
        (Told::ErrPast, Some(_)) => Ok(Reply::TooLarge(Stream::Err)),
        (Told::NoMemory, _) => Err(NoMemory),
        (_, _) => Ok(Reply::Broken),
    }
}

/// The reply to a start that was refused.
pub(crate) fn refused_reply(error: &Error) -> Result<Reply, NoMemory>
    ensures { GivesReply (refused_reply (error_kind error.now) (raw_os_error error.now)) result }
{
    match error.kind() {
        ErrorKind::NotFound => Ok(Reply::Missing),
        ErrorKind::OutOfMemory => match error.raw_os_error() {
            Some(_) => Ok(Reply::Broken),
            None => Err(NoMemory),
        },
        _ => Ok(Reply::Broken),
    }
}
