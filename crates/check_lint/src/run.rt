//! The run of `filecheck_lint`.
ghost use Rattle.std.specs.Prelude.{◌≡◌, ◌≤◌, ◌^◌, IfOk, length};

use crate::lint::{LintRemark, remarks};
use crate::prefixes::prefixes_in;
use std::alloc::Global;
use tt_base::{Bytes, NoMemory, line_of, place_of};
use tt_outside::{Files, Sink};
use tt_run::{Answer, Reading, ToolFrame, read_named};

/// The name of `filecheck_lint`.
pub const LINT: ToolFrame = ToolFrame {
    name: b"filecheck_lint",
};

/// How many bytes a check file may have, as for `filecheck`.
const MAX_FILE: u64 = 1 << 24;

/// Runs `filecheck_lint` on words, which are without the program's name: each is a check file. What looks like a directive and is none is
/// told on `out`. The status is 0 where there is nothing to tell, 1 where there is, 2 where the words are refused or a file isn't
/// there or is too large, 3 at a fault of the files or of a stream, and 4 where memory is wanting.
pub fn lint_run<F: Files, O: Sink, E: Sink>(
    alloc: Global,
    words: &[String],
    files: &mut F,
    out: &mut O,
    err: &mut E,
) -> u8
    ensures no_other { result ≤ 4 }
    ensures files_stay { F.held files.new ≡ F.held files.old }
{
    match answer_from(alloc, words, files) {
        Ok(answer) => answer.write(LINT, out, err),
        Err(NoMemory) => LINT.out_of_memory(err),
    }
}

/// What the words and their files come to.
fn answer_from<F: Files>(alloc: Global, words: &[String], files: &mut F) -> Result<Answer, NoMemory>
    ensures status { IfOk result (λ answer. answer.status ≤ 3) }
    ensures files_stay { F.held files.new ≡ F.held files.old }
{
    if words.is_empty() {
        return refused(alloc, b"a check file is needed", b"");
    }
    for word in words {
        if is_option(word.as_bytes()) {
            return refused(alloc, b"unknown option", word.as_bytes());
        }
    }
    let mut out = Bytes::new(alloc);
    for word in words {
        match read_named(alloc, word.as_str(), MAX_FILE, files)? {
            Reading::Whole(text) => append_remarks(
                alloc,
                word.as_bytes(),
                text.as_slice(),
                &mut out,
            )?,
            Reading::Missing => return stopped(alloc, out, 2, b"no such file", word.as_bytes()),
            Reading::TooLarge => return stopped(alloc, out, 2, b"file too large", word.as_bytes()),
            Reading::Failed => return stopped(alloc, out, 3, b"cannot read", word.as_bytes()),
        }
    }
    let status = if out.is_empty() { 0 } else { 1 };
    Ok(Answer {
        out,
        err: Bytes::new(alloc),
        status,
    })
}

/// Whether a word is an option. There are none.
fn is_option(word: &[u8]) -> bool {
    match word {
        [b'-', _, ..] => true,
        _ => false,
    }
}

/// The answer where words are refused.
fn refused(alloc: Global, why: &[u8], word: &[u8]) -> Result<Answer, NoMemory>
    ensures { IfOk result (λ answer. answer.status ≡ 2) }
{
    stopped(alloc, Bytes::new(alloc), 2, why, word)
}

/// The answer where a run ends early, with what was told before.
fn stopped(
    alloc: Global,
    out: Bytes,
    status: u8,
    why: &[u8],
    word: &[u8],
) -> Result<Answer, NoMemory>
    ensures { IfOk result (λ answer. answer.status ≡ status) }
{
    let mut err = Bytes::from_slice(alloc, LINT.name)?;
    err.append(b": error: ")?;
    err.append(why)?;
    if !word.is_empty() {
        err.append(b" '")?;
        err.append(word)?;
        err.append(b"'")?;
    }
    err.append(b"\n")?;
    Ok(Answer { out, err, status })
}

/// Adds what is told of a check file.
fn append_remarks(alloc: Global, name: &[u8], text: &[u8], out: &mut Bytes) -> Result<(), NoMemory>
    requires { length text.now ≤ 2 ^ 30 }
{
    let prefixes = prefixes_in(alloc, text)?;
    let remarks = remarks(alloc, text, prefixes.as_slice())?;
    for remark in remarks.as_slice() {
        append_remark(alloc, name, text, remark, out)?;
    }
    Ok(())
}

/// Adds what is told of a line.
fn append_remark(
    alloc: Global,
    name: &[u8],
    text: &[u8],
    remark: &LintRemark,
    out: &mut Bytes,
) -> Result<(), NoMemory>
    requires { length text.now ≤ 2 ^ 30 }
{
    let at = remark.at.min(text.len());
    let (place, line) = (place_of(text, at), line_of(text, at));
    out.append(name)?;
    append_number(alloc, b":", place.line, out)?;
    append_number(alloc, b":", place.col, out)?;
    out.append(b": warning: no directive; '")?;
    out.append(remark.meant.as_slice())?;
    out.append(b"' may be meant\n")?;
    out.append(&text[line.from..line.to])?;
    out.append(b"\n")?;
    match Vec::from_elem(alloc, b' ', at - line.from) {
        Ok(blanks) => out.append(blanks.as_slice())?,
        Err(_) => return Err(NoMemory),
    }
    out.append(b"^\n")
}

/// Adds a number behind a sign.
fn append_number(alloc: Global, sign: &[u8], number: u32, out: &mut Bytes) -> Result<(), NoMemory> {
    out.append(sign)?;
    match number.to_string(alloc) {
        Ok(text) => out.append(text.as_bytes()),
        Err(_) => Err(NoMemory),
    }
}
