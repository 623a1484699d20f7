//! What a hand asks of the system's files.
ghost use Rattle.std.specs.Prelude.{◌≡◌, ◌≤◌, IfOk, length, true};
ghost use Rattle.tt_outside.specs.Fits.{fits};
ghost use Rattle.tt_real.specs.Disk.{IsMade, IsRead, IsWritten};
ghost use Rattle.tt_real.specs.Reply.{made_reply, written_reply};

use crate::files::read_whole;
use std::alloc::Global;
use std::fs::{self, File};
use std::io::{self, ErrorKind, Write};
use std::{rt, str};
use tt_base::{Bytes, NoMemory};
use tt_outside::{FilesFault, Reply, Request, SharedBytes, Stream};

/// Files and directories that are read, made and written by their paths.
pub(crate) trait Disk {
    ghost use Rattle.std.specs.Prelude.{ℕ, Bool, List, Result};
    ghost use Rattle.tt_outside.specs.declared.files.FilesFault.{FilesFault};
    ghost use Rattle.tt_real.specs.Disk.{Done};

    /// What reading a file up to a limit may come to.
    ghost reads: { Self → List ℕ → ℕ → Result (List ℕ) FilesFault → Type 0 };

    /// What making a directory may come to.
    ghost makes: { Self → List ℕ → Done → Type 0 };

    /// What writing bytes into a file may come to, anew or behind what it has.
    ghost writes: { Self → List ℕ → List ℕ → Bool → Done → Type 0 };

    /// Reads a file of at most `limit` bytes.
    fn read(&self, alloc: Global, path: &str, limit: u64) -> Result<SharedBytes, FilesFault>
        ensures came { reads self.now path.now limit result }
        ensures within { IfOk result (λ bytes. length bytes ≤ limit) };

    /// Makes a directory with all its parents.
    fn make(&self, path: &str) -> Result<(), ErrorKind>
        ensures came { makes self.now path.now result };

    /// Writes a file, anew or behind what it has.
    fn write(&self, path: &str, bytes: &[u8], append: bool) -> Result<(), ErrorKind>
        ensures came { writes self.now path.now bytes.now append result };
}

/// The files of a runtime.
#[derive(Drop)]
pub(crate) struct SystemDisk<'a, R> {
    pub(crate) rt: &'a R,
}

impl<'a, R: rt::Files> Disk for SystemDisk<'a, R> {
    ghost use Rattle.std.specs.Prelude.{⊤};

    ghost reads = { λ _ _ _ _. ⊤ };

    ghost makes = { λ _ _ _. ⊤ };

    ghost writes = { λ _ _ _ _ _. ⊤ };

    fn read(&self, alloc: Global, path: &str, limit: u64) -> Result<SharedBytes, FilesFault> {
        let bytes = read_whole(self.rt, alloc, path, limit)?;
        match SharedBytes::new(alloc, bytes) {
            Ok(shared) => Ok(shared),
            Err(NoMemory) => Err(FilesFault::NoMemory),
        }
    }

    fn make(&self, path: &str) -> Result<(), ErrorKind> {
        kind_of(fs::create_dir_all(self.rt, path))
    }

    fn write(&self, path: &str, bytes: &[u8], append: bool) -> Result<(), ErrorKind> {
        let mut how = File::options();
        how.write(true)
            .create(true)
            .append(append)
            .truncate(!append);
        match how.open(self.rt, path) {
            Ok(mut file) => kind_of(file.write_all(bytes)),
            Err(error) => Err(error.kind()),
        }
    }
}

/// What was done, or the kind of the error.
fn kind_of(done: io::Result<()>) -> Result<(), ErrorKind> {
    done.map_err(|error| error.kind())
}

/// The reply to a request of files.
pub(crate) fn disk_reply<D: Disk>(
    disk: &D,
    alloc: Global,
    request: &Request,
) -> Result<Reply, NoMemory>
    ensures { IfOk result (λ reply. fits request.now reply ≡ true) }
{
    match request {
        Request::ReadFile { path, limit } => read_file(disk, alloc, path, *limit),
        Request::MakeDir { path } => Ok(make_dir(disk, path)),
        Request::WriteFile {
            path,
            bytes,
            append,
        } => Ok(write_file(disk, path, bytes, *append)),
        Request::Spawn { .. } => Ok(Reply::Broken),
    }
}

/// Reads a file.
fn read_file<D: Disk>(disk: &D, alloc: Global, path: &Bytes, limit: u64) -> Result<Reply, NoMemory>
    ensures value { IsRead (D.reads disk.now) path.now limit result }
    ensures fit { IfOk result (λ reply. fits (Request.ReadFile path.now limit) reply ≡ true) }
{
    let Ok(path) = str::from_utf8(path.as_slice()) else {
        return Ok(Reply::Broken);
    };
    match disk.read(alloc, path, limit) {
        Ok(bytes) => Ok(Reply::Bytes(bytes)),
        Err(FilesFault::Missing) => Ok(Reply::Missing),
        Err(FilesFault::TooLarge { .. }) => Ok(Reply::TooLarge(Stream::File)),
        Err(FilesFault::Failed) => Ok(Reply::Broken),
        Err(FilesFault::NoMemory) => Err(NoMemory),
    }
}

/// Makes a directory with all its parents.
fn make_dir<D: Disk>(disk: &D, path: &Bytes) -> Reply
    ensures value { IsMade (D.makes disk.now) path.now result }
    ensures fit { fits (Request.MakeDir path.now) result ≡ true }
{
    let Ok(path) = str::from_utf8(path.as_slice()) else {
        return Reply::Broken;
    };
    made_reply(disk.make(path))
}

/// The reply to a directory that was made, or why it was not.
fn made_reply(answer: Result<(), ErrorKind>) -> Reply
    ensures { result ≡ made_reply answer }
{
    match answer {
        Ok(()) => Reply::Written,
        Err(_) => Reply::Broken,
    }
}

/// Writes a file anew, or behind what it has.
fn write_file<D: Disk>(disk: &D, path: &Bytes, bytes: &SharedBytes, append: bool) -> Reply
    ensures value { IsWritten (D.writes disk.now) path.now bytes.now append result }
    ensures fit { fits (Request.WriteFile path.now bytes.now append) result ≡ true }
{
    let Ok(path) = str::from_utf8(path.as_slice()) else {
        return Reply::Broken;
    };
    written_reply(disk.write(path, bytes.as_slice(), append))
}

/// The reply to a file that was written, or why it was not.
fn written_reply(answer: Result<(), ErrorKind>) -> Reply
    ensures { result ≡ written_reply answer }
{
    match answer {
        Ok(()) => Reply::Written,
        Err(ErrorKind::NotFound) => Reply::Missing,
        Err(_) => Reply::Broken,
    }
}
