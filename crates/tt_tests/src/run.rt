//! What reading objects in memory gives, with ample memory, and how an answer ends where a stream is full.
ghost use Rattle.std.specs.Prelude.{◌≡◌, IfOk};

use crate::rows::{are_bytes, limited};
use std::alloc::Global;
use tt_base::{Bytes, Items, NoMemory};
use tt_outside::{MemFiles, MemSink, MemSource, Named};
use tt_run::{Answer, Reading, ToolFrame, read_named, read_source};

/// What a reading is, in a word or its bytes.
fn shown(reading: &Reading) -> &[u8] {
    match reading {
        Reading::Whole(bytes) => bytes.as_slice(),
        Reading::Missing => b"missing",
        Reading::TooLarge => b"too large",
        Reading::Failed => b"failed",
    }
}

fn one_file(alloc: Global, name: &[u8], bytes: &[u8], fails: &[u64]) -> Result<MemFiles, NoMemory> {
    let mut files = Items::new(alloc);
    files.push(Named {
        name: Bytes::from_slice(alloc, name)?,
        bytes: Bytes::from_slice(alloc, bytes)?,
    })?;
    MemFiles::new(alloc, files, fails)
}

/// Whether the file of a name is read as this.
fn reads(
    alloc: Global,
    files: &mut MemFiles,
    name: &str,
    limit: u32,
    due: &[u8],
) -> Result<bool, NoMemory> {
    let reading = read_named(alloc, name, u64::from(limit), files)?;
    Ok(shown(&reading) == due)
}

/// Whether the file of a row is read so.
fn is_read(alloc: Global, files: &mut MemFiles, row: &str) -> Result<bool, NoMemory> {
    match limited(row) {
        Some((name, limit, due)) => reads(alloc, files, name, limit, due.as_bytes()),
        None => Ok(false),
    }
}

/// A name with its blanks, a limit, and what is read. The file has a blank at each end of its
/// name, and the fifth call fails.
const READ: &str = " a  => 4 => text
a => 4 => missing
 a  => 3 => too large
 a  => 4 => text
 a  => 4 => failed
 a  => 4 => text";

#[test]
fn a_file_is_read_whole_or_told_why_not(rt: HostRuntime) -> Result<(), NoMemory> {
    let mut files = one_file(rt.alloc(), b" a ", b"text", &[4])?;
    for row in READ.lines() {
        assert!(rt; is_read(rt.alloc(), &mut files, row)?, "{row}");
    }
    Ok(())
}

/// Whether a file of these bytes is read whole.
fn is_read_whole(alloc: Global, bytes: &[u8]) -> Result<bool, NoMemory> {
    let mut files = one_file(alloc, b"f", bytes, &[])?;
    reads(alloc, &mut files, "f", 1 << 21, bytes)
}

/// Whether a source of these bytes, some of whose reads fail, is read as this.
fn is_taken_as(
    alloc: Global,
    bytes: &[u8],
    limit: u32,
    fails: &[u64],
    due: &[u8],
) -> Result<bool, NoMemory> {
    let mut source = MemSource::new(alloc, bytes, fails)?;
    let reading = read_source(alloc, u64::from(limit), &mut source)?;
    Ok(shown(&reading) == due)
}

#[test]
fn an_empty_file_and_a_large_one_are_read(rt: HostRuntime) -> Result<(), NoMemory> {
    let alloc = rt.alloc();
    let large = vec![in alloc; b'a'; 1 << 21].or(Err(NoMemory))?;
    for bytes in [b"".as_slice(), large.as_slice()] {
        assert!(rt; is_read_whole(alloc, bytes)?);
        assert!(rt; is_taken_as(alloc, bytes, 1 << 21, &[], bytes)?);
    }
    Ok(())
}

#[test]
fn a_source_is_read_to_its_end_or_told_why_not(rt: HostRuntime) -> Result<(), NoMemory> {
    let alloc = rt.alloc();
    assert!(rt; is_taken_as(alloc, b"text", 4, &[], b"text")?);
    assert!(rt; is_taken_as(alloc, b"text", 3, &[], b"too large")?);
    for (fail, due) in [(0, "failed"), (1, "failed"), (2, "text")] {
        let is_due = is_taken_as(alloc, b"text", 4, &[fail], due.as_bytes())?;
        assert!(rt; is_due, "read {fail}: {due}");
    }
    Ok(())
}

/// A short answer with the status 1.
fn answer(alloc: Global) -> Result<Answer, NoMemory>
    ensures { IfOk result (λ answer. answer.status ≡ 1) }
{
    let out = Bytes::from_slice(alloc, b"out")?;
    let err = Bytes::from_slice(alloc, b"err")?;
    Ok(Answer {
        out,
        err,
        status: 1,
    })
}

/// A status, and what was written, as a line.
fn joined(alloc: Global, status: u8, out: &MemSink, err: &MemSink) -> Result<Bytes, NoMemory> {
    let mut text = Bytes::from_slice(alloc, &[b'0' + status.min(9), b' '])?;
    text.append(out.as_slice())?;
    text.append(b" ")?;
    text.append(err.as_slice())?;
    Ok(text)
}

/// A tool of a short name.
const TOOL: ToolFrame = ToolFrame { name: b"t" };

/// The status, the output and the errors of an answer, where there is so much room for them.
fn ended(alloc: Global, out_room: usize, err_room: usize) -> Result<Bytes, NoMemory> {
    let answer = answer(alloc)?;
    let mut out = MemSink::new(alloc, out_room)?;
    let mut err = MemSink::new(alloc, err_room)?;
    let status = answer.write(TOOL, &mut out, &mut err);
    joined(alloc, status, &out, &err)
}

#[test]
fn a_fault_of_the_output_is_told_once(rt: HostRuntime) -> Result<(), NoMemory> {
    for (out_room, err_room, due) in [
        (3, 3, "1 out err"),
        (2, 30, "3 ou t: error: cannot write\n"),
        (0, 2, "3  t:"),
        (3, 2, "3 out er"),
    ] {
        let is_due = are_bytes(ended(rt.alloc(), out_room, err_room), due.as_bytes())?;
        assert!(rt; is_due, "room for {out_room} and {err_room}: {due}");
    }
    Ok(())
}
