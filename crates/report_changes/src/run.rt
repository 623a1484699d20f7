//! The top call.
ghost use Rattle.std.specs.Prelude.{◌≡◌, ◌⊎◌, ◌<◌, ◌≤◌, ◌≢◌, IfErr, IfOk, codes, length};
ghost use Rattle.opt_words.specs.Step.{texts};
ghost use Rattle.report_changes.specs.Run.{AnswerOf, Compares, OutcomeOf, ReportRead};
ghost use Rattle.report_changes.specs.Stop.{IsToldOf, word_at};
ghost use Rattle.tt_run.specs.Run.{Failed, IsKept, LacksMemory, files_of, stream_of};

use crate::answer::answer_to;
use crate::asked::asked;
use crate::stop::{ChangesStop, Unread};
use json_report::{Change, Line, ReportFail, changes, read_report};
use std::alloc::Global;
use tt_base::{Items, NoMemory};
use tt_outside::{Files, Sink};
use tt_run::{Answer, Reading, ToolFrame, read_named};

/// The name of `lit_changes`.
pub const CHANGES: ToolFrame = ToolFrame {
    name: b"lit_changes",
};

/// The greatest length of a report, in bytes.
pub const REPORT_LIMIT: u64 = 67_108_864;

/// Runs `lit_changes` on words, which are without the program's name: two names of reports, the old one first. What changed is told on `out`.
/// The status is 0 where nothing changed, 1 where something did, 2 where the words or a report are refused, 3 at a fault of what was
/// handed in, and 4 for want of memory.
pub fn changes_run<F: Files, O: Sink, E: Sink>(
    alloc: Global,
    words: &[String],
    files: &mut F,
    out: &mut O,
    err: &mut E,
) -> u8
    ensures answer { Compares (texts words.now) F.Files files.old files.new result
        (stream_of O.Sink out.old out.new) (stream_of E.Sink err.old err.new) }
    ensures fault { result ≡ 3 → Failed F.faults files.old files.new
        ⊎ Failed O.faults out.old out.new ⊎ Failed E.faults err.old err.new }
    ensures calm { F.steady files.old → result ≡ 3 →
        Failed O.faults out.old out.new ⊎ Failed E.faults err.old err.new }
    ensures memory { LacksMemory (codes "lit_changes") result (stream_of O.Sink out.old out.new) (stream_of E.Sink err.old err.new) }
    ensures files_stay { IsKept F.Files files.old files.new }
    ensures no_other { result ≤ 4 }
{
    let Ok(answer) = answer_from(alloc, words, files) else {
        return CHANGES.out_of_memory(err);
    };
    answer.write(CHANGES, out, err)
}

/// What is told of the words and their reports.
fn answer_from<F: Files>(alloc: Global, words: &[String], files: &mut F) -> Result<Answer, NoMemory>
    ensures answer { IfOk result (AnswerOf F.Files files.old files.new (texts words.now)) }
    ensures fault { IfOk result (λ answer. answer.status ≡ 3 → Failed F.faults files.old files.new) }
    ensures calm { IfOk result (λ answer. F.steady files.old → answer.status ≢ 3) }
    ensures small { IfOk result (λ answer. answer.status ≤ 3) }
    ensures files_stay { IsKept F.Files files.old files.new }
{
    let outcome = outcome_of(alloc, words, files)?;
    let answer = answer_to(alloc, words, &outcome)?;
    Ok(answer)
}

/// What changed between the reports that the words name, or why it isn't told.
fn outcome_of<F: Files>(
    alloc: Global,
    words: &[String],
    files: &mut F,
) -> Result<Result<Items<Change>, ChangesStop>, NoMemory>
    ensures value { IfOk result (OutcomeOf F.Files files.old files.new (texts words.now)) }
    ensures told { IfOk result (λ outcome. IfErr outcome (IsToldOf (length words.now))) }
    ensures files_stay { IsKept F.Files files.old files.new }
{
    let asked = match asked(alloc, words)? {
        Ok(asked) => asked,
        Err(refusal) => return Ok(Err(ChangesStop::Words(refusal))),
    };
    let old = match report_from(alloc, word_at(words, asked.old), files)? {
        Ok(lines) => lines,
        Err(unread) => return Ok(Err(ChangesStop::Report(asked.old, unread))),
    };
    let new = match report_from(alloc, word_at(words, asked.new), files)? {
        Ok(lines) => lines,
        Err(unread) => return Ok(Err(ChangesStop::Report(asked.new, unread))),
    };
    Ok(Ok(changes(alloc, old.as_slice(), new.as_slice())?))
}

/// The word of an index.
fn word_at(words: &[String], index: usize) -> &str
    requires { index < length words.now }
    ensures { result.now ≡ word_at (texts words.now) index }
{
    words[index].as_str()
}

/// The tests of the report of a name, or why there are none.
fn report_from<F: Files>(
    alloc: Global,
    name: &str,
    files: &mut F,
) -> Result<Result<Items<Line>, Unread>, NoMemory>
    ensures read { IfOk result (ReportRead (files_of F.Files files.old files.new) name.now) }
    ensures files_stay { IsKept F.Files files.old files.new }
{
    match read_named(alloc, name, REPORT_LIMIT, files)? {
        Reading::Whole(bytes) => match read_report(alloc, bytes.as_slice()) {
            Ok(lines) => Ok(Ok(lines)),
            Err(ReportFail::Bad(fault)) => Ok(Err(Unread::Bad(fault))),
            Err(ReportFail::NoMemory) => Err(NoMemory),
        },
        Reading::Missing => Ok(Err(Unread::Missing)),
        Reading::TooLarge => Ok(Err(Unread::TooLarge)),
        Reading::Failed => Ok(Err(Unread::Failed)),
    }
}
