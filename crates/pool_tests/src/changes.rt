//! Runs of `lit_changes` over files in memory, of which a call fails or a stream has little room.

use crate::rows::are_bytes;
use report_changes::changes_run;
use std::alloc::{AllocError, Global};
use tt_base::{Bytes, Items, NoMemory};
use tt_outside::{MemFiles, MemSink, Named};

const OLD: &str =
    r#"{"counts":{"FAIL":1,"PASS":1,"UNRESOLVED":1,"UNSUPPORTED":1,"XFAIL":1},"tests":[{"name":"demo :: a.txt","path":"/w/demo/a.txt","result":"PASS"},{"name":"demo :: b.txt","path":"/w/demo/b.txt","result":"FAIL"},{"name":"demo :: c.txt","path":"/w/demo/c.txt","result":"XFAIL"},{"name":"demo :: d.txt","path":"/w/demo/d.txt","result":"UNSUPPORTED"},{"name":"demo :: e.txt","path":"/w/demo/e.txt","result":"UNRESOLVED"}],"version":1}
"#;

const NEW: &str =
    r#"{"counts":{"PASS":2,"UNSUPPORTED":1,"XPASS":1},"tests":[{"name":"demo :: a.txt","path":"/w/demo/a.txt","result":"PASS"},{"name":"demo :: b.txt","path":"/w/demo/b.txt","result":"PASS"},{"name":"demo :: c.txt","path":"/w/demo/c.txt","result":"XPASS"},{"name":"demo :: d.txt","path":"/w/demo/d.txt","result":"UNSUPPORTED"}],"version":1}
"#;

fn named(alloc: Global, name: &str, text: &str) -> Result<Named, NoMemory> {
    Ok(Named {
        name: Bytes::from_slice(alloc, name.as_bytes())?,
        bytes: Bytes::from_slice(alloc, text.as_bytes())?,
    })
}

/// Two reports, and two files that are none. A call of them fails.
fn files_of(alloc: Global, call: u64) -> Result<MemFiles, NoMemory> {
    let mut files = Items::new(alloc);
    files.push(named(alloc, "old", OLD)?)?;
    files.push(named(alloc, "new", NEW)?)?;
    files.push(named(alloc, "none", "{")?)?;
    files.push(named(alloc, "bad", r#"{"counts":{},"tests":[1],"version":1}"#)?)?;
    MemFiles::new(alloc, files, &[call])
}

/// The words of a line, which stand between bars.
fn words_of(alloc: Global, line: &str) -> Result<Vec<String>, AllocError> {
    let mut words = Vec::new(alloc);
    for word in line.split('|') {
        words.push(String::from_str(alloc, word)?)?;
    }
    Ok(words)
}

/// A status, and what was written behind it, errors first.
fn joined(alloc: Global, status: u8, err: &MemSink, out: &MemSink) -> Result<Bytes, NoMemory> {
    let mut told = Bytes::from_slice(alloc, &[b'0' + status.min(9), b' '])?;
    told.append(err.as_slice())?;
    told.append(out.as_slice())?;
    Ok(told)
}

/// What is told of a run on these words and files, behind its status, where `out` has so much room.
fn told_by(
    alloc: Global,
    words: &[String],
    files: &mut MemFiles,
    room: usize,
) -> Result<Bytes, NoMemory> {
    let mut out = MemSink::new(alloc, room)?;
    let mut err = MemSink::new(alloc, 1000)?;
    let status = changes_run(alloc, words, files, &mut out, &mut err);
    joined(alloc, status, &err, &out)
}

/// The same of a line of words, where a call of the files fails.
fn told_of(alloc: Global, line: &str, call: u64, room: usize) -> Result<Bytes, NoMemory> {
    let Ok(words) = words_of(alloc, line) else {
        return Err(NoMemory);
    };
    let mut files = files_of(alloc, call)?;
    told_by(alloc, words.as_slice(), &mut files, room)
}

/// Words, the call of the files that fails, the room of `out`, and the status with what is told; `/` ends a line.
const RUNS: &str =
    "old|new => 9 => 200 => 1 :w:demo:b.txt: FAIL -> PASS/:w:demo:c.txt: XFAIL -> XPASS/:w:demo:e.txt: UNRESOLVED -> absent/changed: 3/
new|old => 9 => 200 => 1 :w:demo:b.txt: PASS -> FAIL/:w:demo:c.txt: XPASS -> XFAIL/:w:demo:e.txt: absent -> UNRESOLVED/changed: 3/
old|old => 9 => 200 => 0 changed: 0/
--|new|new => 9 => 200 => 0 changed: 0/
old => 9 => 200 => 2 lit_changes: error: two reports are needed/
old|new|new => 9 => 200 => 2 lit_changes: error: two reports are needed/
--json|new => 9 => 200 => 2 lit_changes: error: unknown option '--json'/
gone|none => 9 => 200 => 2 lit_changes: error: 'gone' not found/
old|gone => 9 => 200 => 2 lit_changes: error: 'gone' not found/
none|gone => 9 => 200 => 2 lit_changes: error: bad report 'none': NotJson/
old|bad => 9 => 200 => 2 lit_changes: error: bad report 'bad': BadTest 0/
old|new => 0 => 200 => 3 lit_changes: error: cannot read 'old'/
old|new => 1 => 200 => 3 lit_changes: error: cannot read 'new'/
none|new => 1 => 200 => 2 lit_changes: error: bad report 'none': NotJson/
old|new => 2 => 10 => 3 lit_changes: error: cannot write/:w:demo:b.
old|old => 2 => 11 => 0 changed: 0/
old|old => 2 => 10 => 3 lit_changes: error: cannot write/changed: 0";

/// A number of a row.
fn number_of(text: &str) -> Option<u64> {
    text.parse::<u64>().ok()
}

/// The words of a row, its call, the room, and what is due.
fn cut(row: &str) -> Option<(&str, u64, u64, &str)> {
    let (line, rest) = row.split_once(" => ")?;
    let (call, rest) = rest.split_once(" => ")?;
    let (room, due) = rest.split_once(" => ")?;
    Some((line, number_of(call)?, number_of(room)?, due))
}

/// A text of a row: a `/` ends a line, and a `:` before a name of a path is a `/`.
fn text_of(alloc: Global, text: &str) -> Result<String, AllocError> {
    let lines = text.replace(alloc, "/", "\n")?;
    lines.replace(alloc, ":w:demo:", "/w/demo/")
}

fn is_told(alloc: Global, row: &str) -> Result<bool, NoMemory> {
    let Some((line, call, room, due)) = cut(row) else {
        return Ok(false);
    };
    let Ok(due) = text_of(alloc, due) else {
        return Err(NoMemory);
    };
    are_bytes(told_of(alloc, line, call, room as usize), due.as_bytes())
}

#[test]
fn a_run_tells_what_changed_or_its_first_refusal(rt: HostRuntime) -> Result<(), NoMemory> {
    for row in RUNS.lines() {
        assert!(rt; is_told(rt.alloc(), row)?, "{row}");
    }
    Ok(())
}
