//! A program that is run to its end. By turns it is given a piece of its input and a piece of each of its streams is read, so that
//! neither it nor its hand waits for the other without end.
ghost use Rattle.std.specs.Prelude.{◌≡◌, ◌≤◌, IfOk, length, true};
ghost use Rattle.tt_real.specs.Reply.{fits_program};

use crate::input::Feed;
use crate::read_buffer::{PIECE, ReadBuffer};
use crate::told::{Told, finish_fed, finish_of, refused_reply, reply_of, told_of};
use libc::net::{POLLIN, POLLOUT, poll};
use libc::types::pollfd;
use std::alloc::Global;
use std::io::{Error, ErrorKind, Read};
use std::os::fd::{AsRawFd, RawFd};
use std::process::{Child, ChildStderr, ChildStdout, Command, Processes, Stdio, SystemProcess};
use tt_base::{Bytes, NoMemory};
use tt_outside::{Finish, Reply, SharedBytes};

/// After how many milliseconds a program is looked at again that reads and doesn't write any more: whether it has ended.
const PATIENCE: i32 = 10;

/// What was read of a program's output and errors, where they were read whole.
#[derive(Drop)]
struct Streams {
    told: Told,
    out: SharedBytes,
    err: SharedBytes,
}

/// One of a program's streams: where it is read, up to its end, and what was read.
#[derive(Drop)]
struct Drain<R> {
    reader: Option<R>,
    bytes: ReadBuffer,
}

/// Runs a program with an input. Each of its streams may have at most `limit` bytes.
pub(crate) fn run<R: Processes<Started = SystemProcess>>(
    rt: &R,
    alloc: Global,
    mut command: Command,
    input: &[u8],
    limit: u64,
) -> Result<Reply, NoMemory>
    ensures { IfOk result (λ reply. fits_program limit reply ≡ true) }
{
    command.stdin(Stdio::piped());
    let started = command.spawn(rt);
    drop(command);
    match started {
        Ok(mut child) => {
            let mut feed = Feed::new(child.stdin.take(), input);
            let streams = streams_of(alloc, &mut child, &mut feed, limit);
            let fault = feed.end();
            let finish = wait_for(child, streams.told);
            reply_to(streams, finish_fed(fault, finish), limit)
        }
        Err(error) => refused_reply(&error),
    }
}

impl<R: Read + AsRawFd + Drop> Drain<R> {
    fn new(alloc: Global, reader: R) -> Drain<R> {
        Drain {
            reader: Some(reader),
            bytes: ReadBuffer::new(alloc),
        }
    }

    fn is_open(&self) -> bool {
        self.reader.is_some()
    }

    /// Whether it has more bytes than there is room for.
    fn is_past(&self, room: u64) -> bool {
        self.bytes.len() as u64 > room
    }

    /// The descriptor that is read, or -1 at its end.
    fn fd(&self) -> RawFd {
        match &self.reader {
            Some(reader) => reader.as_raw_fd(),
            None => -1,
        }
    }

    /// Reads once.
    fn read(&mut self) -> Result<(), ErrorKind> {
        let Some(reader) = &mut self.reader else {
            return Ok(());
        };
        if !self.bytes.read_from(reader)? {
            self.reader = None;
        }
        Ok(())
    }

    /// What was read, without the room behind it.
    fn end(self) -> Vec<u8> {
        self.bytes.into_vec()
    }
}

/// Waits until the first of these can be written, or one of the others read, for at most so many milliseconds, or without end.
fn ready(fds: [RawFd; 3], milliseconds: i32) -> Result<[bool; 3], ErrorKind> {
    let ask = |fd, events| pollfd {
        fd,
        events,
        revents: 0,
    };
    let [feed, out, err] = fds;
    let mut asked = [ask(feed, POLLOUT), ask(out, POLLIN), ask(err, POLLIN)];
    if poll(&mut asked, milliseconds) >= 0 {
        return Ok([
            asked[0].revents != 0,
            asked[1].revents != 0,
            asked[2].revents != 0,
        ]);
    }
    match Error::from_raw_os_error(os::errno()).kind() {
        ErrorKind::Interrupted => Ok([false, false, false]),
        kind => Err(kind),
    }
}

/// Waits, and then moves a piece of each that is ready.
fn turn(
    feed: &mut Feed<'_>,
    out: &mut Drain<ChildStdout>,
    err: &mut Drain<ChildStderr>,
    milliseconds: i32,
) -> Result<(), ErrorKind> {
    let [takes, has_out, has_err] = ready([feed.fd(), out.fd(), err.fd()], milliseconds)?;
    if takes {
        feed.write();
    }
    if has_out {
        out.read()?;
    }
    if has_err {
        err.read()?;
    }
    Ok(())
}

/// Feeds a program and reads its streams to their ends, until one has more bytes than there is room for, or up to the first fault.
fn exchange(
    child: &mut Child<SystemProcess>,
    feed: &mut Feed<'_>,
    out: &mut Drain<ChildStdout>,
    err: &mut Drain<ChildStderr>,
    room: u64,
) -> Result<(), ErrorKind> {
    for _ in 0..u64::MAX {
        if out.is_past(room) || err.is_past(room) {
            return Ok(());
        }
        match (feed.is_open(), out.is_open(), err.is_open()) {
            (false, false, false) => return Ok(()),
            (false, true, false) => out.read()?,
            (false, false, true) => err.read()?,
            (true, false, false) => {
                if !matches!(child.try_wait(), Ok(None)) {
                    return Ok(());
                }
                turn(feed, out, err, PATIENCE)?;
            }
            (_, _, _) => turn(feed, out, err, -1)?,
        }
    }
    Err(ErrorKind::TimedOut)
}

/// Feeds a program, reads both of its streams, and closes them. A stream may pass the limit by a piece, so that it is told of the
/// output first.
fn streams_of(
    alloc: Global,
    child: &mut Child<SystemProcess>,
    feed: &mut Feed<'_>,
    limit: u64,
) -> Streams
    ensures { result.told ≡ Told.Whole → (length result.out ≤ limit) × (length result.err ≤ limit) }
{
    let (Some(stdout), Some(stderr)) = (child.stdout.take(), child.stderr.take()) else {
        return nothing(Told::Failed);
    };
    let (mut out, mut err) = (Drain::new(alloc, stdout), Drain::new(alloc, stderr));
    let room = limit.saturating_add(PIECE as u64);
    let fault = exchange(child, feed, &mut out, &mut err, room).err();
    kept(alloc, fault, out.end(), err.end(), limit)
}

/// No bytes.
fn nothing(told: Told) -> Streams
    ensures { result.told ≡ told }
{
    Streams {
        told,
        out: SharedBytes::none(),
        err: SharedBytes::none(),
    }
}

/// The bytes of a stream, to be shared. They aren't copied.
fn shared(alloc: Global, bytes: Vec<u8>) -> Result<SharedBytes, NoMemory>
    ensures { IfOk result (λ shared. shared ≡ bytes.items) }
{
    SharedBytes::new(alloc, Bytes::from_vec(bytes))
}

/// What was read, where both streams were read whole.
fn kept(alloc: Global, fault: Option<ErrorKind>, out: Vec<u8>, err: Vec<u8>, limit: u64) -> Streams
    ensures { result.told ≡ Told.Whole → (length result.out ≤ limit) × (length result.err ≤ limit) }
{
    let told = told_of(fault, out.as_slice(), err.as_slice(), limit);
    if told != Told::Whole {
        return nothing(told);
    }
    match (shared(alloc, out), shared(alloc, err)) {
        (Ok(out), Ok(err)) => Streams { told, out, err },
        (_, _) => nothing(Told::NoMemory),
    }
}

/// Waits for a program, and tells how it ended. It is killed before where its streams weren't read to their ends.
fn wait_for(mut child: Child<SystemProcess>, told: Told) -> Option<Finish> {
    if told != Told::Whole {
        let _ = child.kill();
    }
    match child.wait() {
        Ok(status) => finish_of(status),
        Err(_) => None,
    }
}

/// The reply to a program that ended so.
fn reply_to(streams: Streams, finish: Option<Finish>, limit: u64) -> Result<Reply, NoMemory>
    requires { streams.told ≡ Told.Whole → (length streams.out ≤ limit) × (length streams.err ≤ limit) }
    ensures { IfOk result (λ reply. fits_program limit reply ≡ true) }
{
    let Streams { told, out, err } = streams;
    reply_of(told, finish, out, err, limit)
}
