//! How a program is given its input, so that neither waits for the other without end: what a new pipe holds is written at once, and
//! more of it piece by piece, as the pipe takes it.
ghost use Rattle.std.specs.Prelude.{◌≡◌, ◌≤◌, ℕ, IfNone, length, take};
ghost use Rattle.std.specs.Io.KnownBytes.{Appends};

use std::io::{Error, ErrorKind, Write};
use std::os::fd::{AsRawFd, RawFd};
use std::process::ChildStdin;

/// How many bytes a pipe that is empty takes without waiting for a reader.
const AT_ONCE: usize = 4096;

/// The input of a program: where it is written, until all of it is or the program takes no more, and what is left of it.
#[derive(Drop)]
pub(crate) struct Feed<'a> {
    stdin: Option<ChildStdin>,
    left: &'a [u8],
    fault: Option<ErrorKind>,
}

/// What was written of what is left of an input.
#[derive(Clone, Copy)]
enum Fed {
    Whole,
    UpTo(usize),
    Failed(ErrorKind),
}

/// Writes the whole input. It tells the kind of the fault, where there is one.
fn feed_all<W: Write>(stdin: &mut W, input: &[u8]) -> Option<ErrorKind>
    ensures { IfNone result (Appends (W.contents stdin.old) (W.contents stdin.new) input.now) }
{
    match stdin.write_all(input) {
        Ok(()) => None,
        Err(error) => Some(error.kind()),
    }
}

/// Writes as much of what is left as is taken without waiting.
#[tactic(auto, using(crate::proofs::RetryLemmas::writes_none))]
fn feed_piece<W: Write>(stdin: &mut W, left: &[u8]) -> Fed
    ensures whole { result ≡ Fed.Whole → Appends (W.contents stdin.old) (W.contents stdin.new) left.now }
    ensures part { (count : ℕ) → result ≡ Fed.UpTo count → (count ≤ length left.now)
        × Appends (W.contents stdin.old) (W.contents stdin.new) (take count left.now) }
{
    match stdin.write(left) {
        Ok(count) => {
            if count == left.len() {
                Fed::Whole
            } else {
                Fed::UpTo(count)
            }
        }
        Err(error) => match error.kind() {
            ErrorKind::Interrupted | ErrorKind::WouldBlock => Fed::UpTo(0),
            kind => Fed::Failed(kind),
        },
    }
}

impl<'a> Feed<'a> {
    /// An input of which nothing is left to be written.
    fn ended(fault: Option<ErrorKind>) -> Feed<'a> {
        Feed {
            stdin: None,
            left: b"".as_slice(),
            fault,
        }
    }

    /// The input of a program that has just begun. What its pipe holds is written.
    pub(crate) fn new(stdin: Option<ChildStdin>, input: &'a [u8]) -> Feed<'a> {
        let Some(mut stdin) = stdin else {
            return Feed::ended(Some(ErrorKind::NotConnected));
        };
        if input.len() <= AT_ONCE {
            return Feed::ended(feed_all(&mut stdin, input));
        }
        if os::set_nonblocking(stdin.as_raw_fd(), true) != 0 {
            return Feed::ended(Some(Error::from_raw_os_error(os::errno()).kind()));
        }
        Feed {
            stdin: Some(stdin),
            left: input,
            fault: None,
        }
    }

    /// Whether more is to be written.
    pub(crate) fn is_open(&self) -> bool {
        self.stdin.is_some()
    }

    /// The descriptor on which more is to be written, or -1.
    pub(crate) fn fd(&self) -> RawFd {
        match &self.stdin {
            Some(stdin) => stdin.as_raw_fd(),
            None => -1,
        }
    }

    /// Writes as much as is taken without waiting.
    pub(crate) fn write(&mut self) {
        let Some(stdin) = &mut self.stdin else {
            return;
        };
        match feed_piece(stdin, self.left) {
            Fed::Whole => self.stdin = None,
            Fed::UpTo(count) => self.left = &self.left[count..],
            Fed::Failed(kind) => {
                self.stdin = None;
                self.fault = Some(kind);
            }
        }
    }

    /// The kind of the fault with which it was written, where there is one. What a program that has ended left of it is no fault.
    pub(crate) fn end(self) -> Option<ErrorKind> {
        self.fault
    }
}
