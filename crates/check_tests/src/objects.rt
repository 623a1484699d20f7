//! Runs of `filecheck` on objects in memory.
use filecheck_tool::filecheck_run;
use std::alloc::{AllocError, Global};
use tt_base::{Bytes, Items, NoMemory};
use tt_outside::{MemFiles, MemSink, MemSource, Named};

/// The number of a call that is never reached.
pub(crate) const NEVER: u64 = 1_000_000;

/// What is told, behind the status, of `CHECK: foo` on a line `bar`.
pub(crate) const NOT_FOUND: &str = "1 t.txt:1:8: error: CHECK: expected string not found in input
CHECK: foo
       ^
<stdin>:1:1: note: scanning from here
bar
^
";

fn named(alloc: Global, name: &str, text: &str) -> Result<Named, NoMemory> {
    Ok(Named {
        name: Bytes::from_slice(alloc, name.as_bytes())?,
        bytes: Bytes::from_slice(alloc, text.as_bytes())?,
    })
}

/// The check file, whose name is `t.txt`, and `in.txt` with a line. A call of them fails.
pub(crate) fn files_of(alloc: Global, checks: &str, call: u64) -> Result<MemFiles, NoMemory> {
    let mut files = Items::new(alloc);
    files.push(named(alloc, "t.txt", checks)?)?;
    files.push(named(alloc, "in.txt", "foo\n")?)?;
    MemFiles::new(alloc, files, &[call])
}

/// The words of a line, which stand between bars.
pub(crate) fn words_of(alloc: Global, line: &str) -> Result<Vec<String>, AllocError> {
    let mut words = Vec::new(alloc);
    for word in line.split('|') {
        words.push(String::from_str(alloc, word)?)?;
    }
    Ok(words)
}

/// A status, and what was written behind it, errors first.
fn joined(alloc: Global, status: u8, err: &MemSink, out: &MemSink) -> Result<Bytes, NoMemory> {
    let mut told = Bytes::from_slice(alloc, &[b'0' + status.min(9), b' '])?;
    told.append(err.as_slice())?;
    told.append(out.as_slice())?;
    Ok(told)
}

/// What is told of a run on these words and objects, behind its status.
pub(crate) fn told_of(
    alloc: Global,
    line: &str,
    files: &mut MemFiles,
    input: &mut MemSource,
    out: &mut MemSink,
    err: &mut MemSink,
) -> Result<Bytes, NoMemory> {
    let Ok(words) = words_of(alloc, line) else {
        return Err(NoMemory);
    };
    let status = filecheck_run(alloc, words.as_slice(), files, input, out, err);
    joined(alloc, status, err, out)
}
