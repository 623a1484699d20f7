//! Files and directories that a hand makes.
use crate::hired::reply_to;
use crate::paths::own_path;
use crate::rows::three;
use std::alloc::{AllocError, Global};
use std::{fs, io, process};
use tt_base::{Bytes, NoMemory};
use tt_outside::{Crew, Reply, Request, SharedBytes};
use tt_real::StdCrew;

/// What a row asks of a path below a folder.
fn asked(alloc: Global, what: &str, path: &str, bytes: &str) -> Result<Request, NoMemory> {
    let path = Bytes::from_slice(alloc, path.as_bytes())?;
    match what {
        "make" => Ok(Request::MakeDir { path }),
        "read" => Ok(Request::ReadFile { path, limit: 6 }),
        _ => Ok(Request::WriteFile {
            path,
            bytes: SharedBytes::from_slice(alloc, bytes.as_bytes())?,
            append: what == "add",
        }),
    }
}

/// A reply in a word, or the bytes of a file.
fn shown(reply: &Reply) -> &[u8] {
    match reply {
        Reply::Bytes(bytes) => bytes.as_slice(),
        Reply::Written => b"written",
        Reply::Missing => b"missing",
        Reply::TooLarge(_) => b"too large",
        Reply::Broken => b"broken",
        Reply::Status { .. } => b"a status",
    }
}

/// Whether a hand that is hired for a request alone answers so.
fn answers<C: Crew>(
    alloc: Global,
    crew: &mut C,
    request: &Request,
    due: &str,
) -> Result<bool, NoMemory>
    requires { C.ready crew.old }
    ensures { C.ready crew.new }
{
    let reply = reply_to(alloc, crew, 0, request)?;
    Ok(shown(&reply) == due.as_bytes())
}

/// Whether what a row asks below a folder is answered so. What is written stands behind the name.
fn is_answered<C: Crew>(
    alloc: Global,
    crew: &mut C,
    folder: &str,
    row: &str,
) -> Result<bool, AllocError>
    requires { C.ready crew.old }
    ensures { C.ready crew.new }
{
    let Some((what, path, due)) = three(row) else {
        return Ok(false);
    };
    let (name, bytes) = path.split_once(' ').unwrap_or((path, ""));
    let path = format!(in alloc; "{folder}/{name}")?;
    let request = asked(alloc, what, path.as_str(), bytes).or(Err(AllocError))?;
    answers(alloc, crew, &request, due).or(Err(AllocError))
}

const ASKED: &str = "write => d/e/f abcdef => missing
make => d/e => written
make => d/e => written
write => d/e/f abcdef => written
read => d/e/f => abcdef
write => d/e/f xy => written
read => d/e/f => xy
add => d/e/f zzzz => written
read => d/e/f => xyzzzz
add => d/e/f ! => written
read => d/e/f => too large
add => d/e/new a => written
read => d/e/new => a
write => d/e a => broken
make => d/e/f => broken
make => d/e/f/g => broken
read => d/e => broken
read => none => missing
read => \0 => broken
write => \0 => broken
make => \0 => broken";

#[test]
fn files_are_written_anew_or_added_to(rt: HostRuntime) -> io::Result<()> {
    let alloc = rt.alloc();
    let folder = own_path(&rt, "tt_real_written_", process::id(rt.process()), "")?;
    let folder = folder.as_str();
    fs::create_dir(&rt, folder)?;
    let mut crew = StdCrew::new(alloc, rt);
    for row in ASKED.lines() {
        assert!(rt; is_answered(alloc, &mut crew, folder, row)?, "{row:?}");
    }
    fs::remove_dir_all(&rt, folder)
}
