//! `count` and `not` over memory, where a read of their input fails.
use crate::rows::are_bytes;
use not_count::{count_run, not_run};
use std::alloc::Global;
use tt_base::{Bytes, Items, NoMemory};
use tt_outside::{MemCrew, MemSink, MemSource};

/// A status, and what was written behind it.
fn joined(alloc: Global, status: u8, text: &MemSink) -> Result<Bytes, NoMemory> {
    let mut told = Bytes::from_slice(alloc, &[b'0' + status.min(9), b' '])?;
    told.append(text.as_slice())?;
    Ok(told)
}

/// A word of a command line.
fn word(alloc: Global, text: &str) -> Result<String, NoMemory> {
    String::from_str(alloc, text).or(Err(NoMemory))
}

/// What `count` tells of words behind its status, where the second read of its input fails.
fn counted(alloc: Global, words: &[String]) -> Result<Bytes, NoMemory> {
    let mut input = MemSource::new(alloc, b"a\n", &[1])?;
    let mut told = MemSink::new(alloc, 1 << 10)?;
    let status = count_run(words, &mut input, &mut told);
    joined(alloc, status, &told)
}

/// Whether `count 1` tells this.
fn counts(alloc: Global, due: &[u8]) -> Result<bool, NoMemory> {
    let words = [word(alloc, "1")?];
    are_bytes(counted(alloc, &words), due)
}

#[test]
fn a_failed_read_is_told(rt: HostRuntime) -> Result<(), NoMemory> {
    assert!(rt; counts(rt.alloc(), b"3 count: error: cannot read '<stdin>'\n")?);
    Ok(())
}

/// What `not p` tells behind its status and writes behind a bar, where the first read of its input fails.
fn turned(alloc: Global, words: &[String], crew: &mut MemCrew) -> Result<Bytes, NoMemory> {
    let mut input = MemSource::new(alloc, b"in", &[0])?;
    let mut out = MemSink::new(alloc, 1 << 10)?;
    let mut err = MemSink::new(alloc, 1 << 10)?;
    let status = not_run(alloc, words, crew, &mut input, &mut out, &mut err);
    let mut told = joined(alloc, status, &err)?;
    told.append(b"|")?;
    told.append(out.as_slice())?;
    Ok(told)
}

/// Whether `not p` tells this.
fn turns(alloc: Global, crew: &mut MemCrew, due: &[u8]) -> Result<bool, NoMemory> {
    let words = [word(alloc, "p")?];
    are_bytes(turned(alloc, &words, crew), due)
}

#[test]
fn without_an_input_nothing_is_run(rt: HostRuntime) -> Result<(), NoMemory> {
    let mut crew = MemCrew::new(rt.alloc(), Items::new(rt.alloc()));
    assert!(rt;
        turns(
            rt.alloc(),
            &mut crew,
            b"3 not: error: cannot read '<stdin>'\n|"
        )?
    );
    assert!(rt; crew.hands().is_empty());
    Ok(())
}
