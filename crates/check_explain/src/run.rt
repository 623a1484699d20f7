//! The run of `filecheck_explain`.
ghost use Rattle.std.specs.Prelude.{◌≡◌, ◌≤◌, ◌^◌, IfOk};
ghost use Rattle.tt_run.specs.Run.{IsShort};

use crate::explained::{copied, explain_on};
use crate::program::program_of;
use filecheck_tool::{CHECK_LIMIT, FILECHECK, INPUT_LIMIT, filecheck_run};
use filecheck_words::{Asked, Input, Job, WordsFail, asked_by};
use std::alloc::Global;
use std::mem::drop;
use std::str::from_utf8;
use tt_base::NoMemory;
use tt_outside::{Files, Sink, Source};
use tt_run::{Answer, Reading, read_named, read_source};

/// Runs `filecheck_explain` on words, which are without the program's name: those of `filecheck`. It writes and answers what `filecheck`
/// does, and behind each message what explains it. Where the words ask for no check, it is `filecheck` itself.
pub fn explain_run<F: Files, I: Source, O: Sink, E: Sink>(
    alloc: Global,
    words: &[String],
    files: &mut F,
    input: &mut I,
    out: &mut O,
    err: &mut E,
) -> u8
    ensures no_other { result ≤ 4 }
    ensures files_stay { F.held files.new ≡ F.held files.old }
{
    let asked = match check_asked(alloc, words) {
        Ok(Some(asked)) => asked,
        Ok(None) => return filecheck_run(alloc, words, files, input, out, err),
        Err(NoMemory) => return FILECHECK.out_of_memory(err),
    };
    let answer = answer_from(alloc, words, &asked, files, input);
    // A call, since a drop in place is proved field by field.
    drop(asked);
    match answer {
        Ok(answer) => answer.write(FILECHECK, out, err),
        Err(NoMemory) => FILECHECK.out_of_memory(err),
    }
}

/// What the words ask to be checked, if they ask for a check.
fn check_asked(alloc: Global, words: &[String]) -> Result<Option<Asked>, NoMemory> {
    match asked_by(alloc, words) {
        Ok(Job::Check(asked)) => Ok(Some(asked)),
        Err(WordsFail::NoMemory) => Err(NoMemory),
        other => {
            // A call, since a drop in place is proved variant by variant.
            drop(other);
            Ok(None)
        }
    }
}

/// What is told of words, check file and input, with what explains it.
fn answer_from<F: Files, I: Source>(
    alloc: Global,
    words: &[String],
    asked: &Asked,
    files: &mut F,
    input: &mut I,
) -> Result<Answer, NoMemory>
    ensures small { IfOk result (λ answer. answer.status ≤ 3) }
    ensures files_stay { F.held files.new ≡ F.held files.old }
{
    let file = read_file(alloc, asked.name.as_slice(), CHECK_LIMIT, files)?;
    let read = if is_program(alloc, words, &file)? {
        read_input(alloc, &asked.input, files, input)?
    } else {
        Reading::Missing
    };
    let explained = explain_on(alloc, words, &file, &read)?;
    explained.whole(alloc)
}

/// Whether a check file isn't refused. The input of one that is refused isn't read.
fn is_program(alloc: Global, words: &[String], file: &Reading) -> Result<bool, NoMemory>
    requires { IsShort (2 ^ 30) file.now }
{
    let program = program_of(alloc, words, copied(alloc, file)?)?;
    let is_program = program.is_some();
    // A call, since a drop in place is proved field by field.
    drop(program);
    Ok(is_program)
}

/// What reading an input gave.
fn read_input<F: Files, I: Source>(
    alloc: Global,
    place: &Input,
    files: &mut F,
    input: &mut I,
) -> Result<Reading, NoMemory>
    ensures short { IfOk result (IsShort (2 ^ 26)) }
    ensures files_stay { F.held files.new ≡ F.held files.old }
{
    match place {
        Input::Standard => read_source(alloc, INPUT_LIMIT, input),
        Input::Named(name) => read_file(alloc, name.as_slice(), INPUT_LIMIT, files),
    }
}

/// What reading the file of a name gave.
fn read_file<F: Files>(
    alloc: Global,
    name: &[u8],
    limit: u64,
    files: &mut F,
) -> Result<Reading, NoMemory>
    requires { limit ≤ 2 ^ 26 }
    ensures short { IfOk result (IsShort limit) }
    ensures files_stay { F.held files.new ≡ F.held files.old }
{
    match from_utf8(name) {
        Ok(name) => read_named(alloc, name, limit, files),
        Err(_) => Ok(Reading::Missing),
    }
}
