//! Calls that fail, and streams that are full.
use crate::fields::{are_bytes, in_bytes};
use crate::objects::{NEVER, NOT_FOUND, files_of, told_of};
use std::alloc::Global;
use tt_base::{Bytes, NoMemory};
use tt_outside::{MemSink, MemSource};

/// Room for each message of these tests.
const AMPLE: usize = 1 << 14;

/// What is told of `CHECK: foo` on a line `foo`, where a call of the files and a read of the input fail.
fn told_failing(alloc: Global, line: &str, call: u64, read: u64) -> Result<Bytes, NoMemory> {
    let mut files = files_of(alloc, "CHECK: foo\n", call)?;
    let mut input = MemSource::new(alloc, b"foo\n", &[read])?;
    let mut out = MemSink::new(alloc, AMPLE)?;
    let mut err = MemSink::new(alloc, AMPLE)?;
    told_of(alloc, line, &mut files, &mut input, &mut out, &mut err)
}

/// What is told where a file or an input of this name can't be read.
fn failure(alloc: Global, name: &str) -> Result<Bytes, NoMemory> {
    in_bytes(
        alloc,
        format!(in alloc; "3 filecheck: error: cannot read '{name}'\n"),
    )
}

/// Whether a run is told to fail at this name, and nothing else.
fn fails_at(
    alloc: Global,
    line: &str,
    (call, read): (u64, u64),
    name: &str,
) -> Result<bool, NoMemory> {
    let due = failure(alloc, name)?;
    are_bytes(told_failing(alloc, line, call, read), due.as_slice())
}

#[test]
fn a_failed_read_ends_with_three(rt: HostRuntime) -> Result<(), NoMemory> {
    for (line, call, read, name) in [
        ("t.txt", 0, NEVER, "t.txt"),
        ("t.txt", NEVER, 0, "<stdin>"),
        ("t.txt", NEVER, 1, "<stdin>"),
        ("--input-file=in.txt|t.txt", 1, NEVER, "in.txt"),
    ] {
        let is_told = fails_at(rt.alloc(), line, (call, read), name)?;
        assert!(rt; is_told, "call {call}, read {read}");
    }
    Ok(())
}

/// What is told of `CHECK: foo` on a line `bar`, where `err` and `out` have so much room.
fn told_in(alloc: Global, line: &str, err: usize, out: usize) -> Result<Bytes, NoMemory> {
    let mut files = files_of(alloc, "CHECK: foo\n", NEVER)?;
    let mut input = MemSource::new(alloc, b"bar\n", &[NEVER])?;
    let mut out = MemSink::new(alloc, out)?;
    let mut err = MemSink::new(alloc, err)?;
    told_of(alloc, line, &mut files, &mut input, &mut out, &mut err)
}

/// Whether so much of the message is told, behind status 3.
fn is_cut(alloc: Global, message: &[u8], room: usize) -> Result<bool, NoMemory> {
    let told = told_in(alloc, "t.txt", room, AMPLE)?;
    match told.as_slice().strip_prefix(b"3 ") {
        Some(text) => Ok(message.get(..room) == Some(text)),
        None => Ok(false),
    }
}

#[test]
fn a_message_ends_where_the_error_stream_is_full(rt: HostRuntime) -> Result<(), NoMemory> {
    let message = NOT_FOUND.strip_prefix("1 ").unwrap_or("").as_bytes();
    assert!(rt; !message.is_empty());
    for room in 0..message.len() {
        assert!(rt; is_cut(rt.alloc(), message, room)?, "room for {room}");
    }
    Ok(())
}

#[test]
fn what_out_does_not_take_is_told_once(rt: HostRuntime) -> Result<(), NoMemory> {
    let told = told_in(rt.alloc(), "--generate=3", AMPLE, 10);
    let due = b"3 filecheck: error: cannot write\ngenerated:";
    assert!(rt; are_bytes(told, due.as_slice())?);
    Ok(())
}
