//! What a test asks of the outside, and what it is answered.
ghost use Rattle.std.specs.Prelude.{◌≡◌, IfOk, IsTrue};
ghost use Rattle.tt_outside.specs.Fits.{fits};

use crate::shared::SharedBytes;
use tt_base::{Bytes, Items, NoMemory};

/// A name and its value.
#[derive(Drop, Debug)]
pub struct Pair {
    pub name: Bytes,
    pub value: Bytes,
}

/// What a test asks of the outside. Paths are joined to the program's own directory unless they begin with `/`.
#[derive(Drop, Debug)]
pub enum Request {
    /// The bytes of a file, if there are at most `limit`.
    ReadFile {
        path: Bytes,
        limit: u64,
    },
    /// A directory, made with all its parents.
    MakeDir {
        path: Bytes,
    },
    /// A file with these bytes, written anew or behind what it has.
    WriteFile {
        path: Bytes,
        bytes: SharedBytes,
        append: bool,
    },
    /// A program, by its name and its words, run to its end in a directory, with this environment beside the
    /// inherited one and this input. Each of its two streams may have at most `limit` bytes.
    Spawn {
        words: Items<Bytes>,
        dir: Bytes,
        env: Items<Pair>,
        input: SharedBytes,
        limit: u64,
    },
}

/// How a program ended: with a code of its own, or by a signal.
#[derive(Clone, Copy, Debug, PartialEq, Eq)]
pub enum Finish {
    Code(u8),
    Signal(u8),
}

/// Whose bytes passed the limit of a request.
#[derive(Clone, Copy, Debug, PartialEq, Eq)]
pub enum Stream {
    File,
    Out,
    Err,
}

/// What a request is answered.
#[derive(Drop, Debug)]
pub enum Reply {
    /// The file's bytes.
    Bytes(SharedBytes),
    /// The file or the directory is there.
    Written,
    /// There is no such file or program, or no directory for the file.
    Missing,
    /// The program ended, and wrote this.
    Status {
        finish: Finish,
        out: SharedBytes,
        err: SharedBytes,
    },
    /// More bytes than the limit.
    TooLarge(Stream),
    /// A fault of the outside.
    Broken,
}

/// A request of a test, and its reply.
#[derive(Drop, Debug)]
pub struct Entry {
    pub request: Request,
    pub reply: Reply,
}

/// Whether a reply is one of those that the request may get.
pub fn fits(request: &Request, reply: &Reply) -> bool
    ensures { result ≡ fits request.now reply.now }
{
    match (request, reply) {
        (_, Reply::Broken) => true,
        (Request::ReadFile { limit, .. }, Reply::Bytes(bytes)) => bytes.len() as u64 <= *limit,
        (Request::ReadFile { .. }, Reply::Missing) => true,
        (Request::ReadFile { .. }, Reply::TooLarge(Stream::File)) => true,
        (Request::MakeDir { .. }, Reply::Written) => true,
        (Request::WriteFile { .. }, Reply::Written) => true,
        (Request::WriteFile { .. }, Reply::Missing) => true,
        (Request::Spawn { limit, .. }, Reply::Status { out, err, .. }) => {
            out.len() as u64 <= *limit && err.len() as u64 <= *limit
        }
        (Request::Spawn { .. }, Reply::Missing) => true,
        (Request::Spawn { .. }, Reply::TooLarge(Stream::Out)) => true,
        (Request::Spawn { .. }, Reply::TooLarge(Stream::Err)) => true,
        _ => false,
    }
}

impl Reply {
    /// An equal reply, which shares its bytes with the first.
    pub fn copy(&self) -> Result<Reply, NoMemory>
        ensures { IfOk result (λ copy. copy ≡ self.now) }
    {
        match self {
            Reply::Bytes(bytes) => Ok(Reply::Bytes(bytes.share()?)),
            Reply::Written => Ok(Reply::Written),
            Reply::Missing => Ok(Reply::Missing),
            Reply::Status { finish, out, err } => Ok(Reply::Status {
                finish: *finish,
                out: out.share()?,
                err: err.share()?,
            }),
            Reply::TooLarge(stream) => Ok(Reply::TooLarge(*stream)),
            Reply::Broken => Ok(Reply::Broken),
        }
    }
}
