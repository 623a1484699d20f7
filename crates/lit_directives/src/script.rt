//! The script of a test.
ghost use Rattle.std.specs.Prelude.{◌≡◌, ◌≤◌, ◌^◌, IfOk, Ok, length};
ghost use Rattle.std.specs.Str.{is_utf8};
ghost use Rattle.lit_directives.specs.Script.{IsScript, IsState, LeadsOn, after_all, beginning, directives_of, ended, reader_view, script_of, script_view};
ghost use Rattle.lit_directives.specs.Joined.{AreRuns, parts};
ghost use Rattle.lit_directives.specs.Lists.{HasNoRefs, ListsAddUp};

use crate::fault::{ScriptFail, ScriptFault};
use crate::front::without_return;
use crate::line::{Said, read_line};
use crate::reader::Reader;
use bool_exprs::BoolExpr;
use std::alloc::Global;
use std::str::from_utf8;
use tt_base::{Bytes, Items, line_of};

/// A RUN line, its continued parts joined.
#[derive(Drop, Debug)]
pub struct RunLine {
    /// The line of its first part, from 1.
    pub line: u32,
    pub text: Bytes,
}

/// What a test's file says of its run.
#[derive(Drop, Debug)]
pub struct Script {
    pub runs: Items<RunLine>,
    pub required: Items<BoolExpr>,
    pub unsupported: Items<BoolExpr>,
    pub xfail: Items<BoolExpr>,
    /// How often a test that failed is run again; 0 where nothing says so.
    pub retries: u32,
}

/// What was read behind a line, and whether the reading goes on.
fn after_line(
    alloc: Global,
    reader: Reader,
    number: u32,
    line: &[u8],
) -> Result<(Reader, bool), ScriptFail>
    ensures { LeadsOn (reader_view reader) number line.now result }
{
    match read_line(line) {
        Said::Stop => Ok((reader, false)),
        Said::Nothing => Ok((reader, true)),
        Said::Directive(kind, rest) => {
            match reader.by_directive(alloc, number, is_text(line), kind, rest) {
                Ok(next) => Ok((next, true)),
                Err(fail) => Err(fail),
            }
        }
    }
}

/// What the directives of all lines say.
fn read_lines(alloc: Global, bytes: &[u8]) -> Result<Reader, ScriptFail>
    requires { length bytes.now ≤ 2 ^ 30 }
    ensures { IsState result (after_all beginning (directives_of bytes.now)) }
{
    let mut reader = Reader::beginning(alloc);
    let mut number: u32 = 1;
    let mut start = 0;
    loop {
        let end = line_of(bytes, start).to;
        let line = without_return(&bytes[start..end]);
        match after_line(alloc, reader, number, line) {
            Err(fail) => return Err(fail),
            Ok((next, goes_on)) => {
                if !goes_on {
                    return Ok(next);
                }
                if end == bytes.len() {
                    return Ok(next);
                }
                reader = next;
                number += 1;
                start = end + 1;
            }
        }
    }
}

/// Whether bytes are UTF-8.
fn is_text(bytes: &[u8]) -> bool
    ensures { result ≡ is_utf8 bytes.now }
{
    match from_utf8(bytes) {
        Ok(_) => true,
        Err(_) => false,
    }
}

/// The script at the end of its directives.
fn finished(reader: Reader) -> Result<Script, ScriptFail>
    ensures { IsScript result (ended (Ok (reader_view reader))) }
{
    let Reader {
        runs,
        pending,
        required,
        unsupported,
        xfail,
        retries,
        ..
    } = reader;
    if let Some(pending) = pending {
        return Err(ScriptFail::Bad(ScriptFault::Unfinished(pending.last)));
    }
    if runs.is_empty() {
        return Err(ScriptFail::Bad(ScriptFault::NoRun));
    }
    Ok(Script {
        runs,
        required,
        unsupported,
        xfail,
        retries: match retries {
            None => 0,
            Some(number) => number,
        },
    })
}

/// Reads the script of a test's file.
pub fn read_script(alloc: Global, bytes: &[u8]) -> Result<Script, ScriptFail>
    requires small { length bytes.now ≤ 2 ^ 30 }
    ensures exact { IsScript result (script_of bytes.now) }
    ensures runs { IfOk result (λ script. AreRuns (parts (directives_of bytes.now)) script.runs) }
    ensures lists { IfOk result (λ script. ListsAddUp (directives_of bytes.now) (script_view script)) }
    ensures no_refs { IfOk result HasNoRefs }
{
    match read_lines(alloc, bytes) {
        Ok(reader) => finished(reader),
        Err(fail) => Err(fail),
    }
}
