//! The RUN lines of a test, expanded and understood.
ghost use Rattle.std.specs.Prelude.{◌≡◌, IfOk, length};
ghost use Rattle.test_plan.specs.RunLines.{HasAtMost, pairs_of, read_run, read_runs};

use crate::cause::Cause;
use crate::texts::texts_of;
use lit_directives::RunLine;
use mini_shell::{Line, ShellFail, parse_line};
use std::alloc::Global;
use substs::{ExpandFail, Texts, expand};
use tt_base::{Items, NoMemory};
use tt_outside::Test;

/// What a RUN line comes to.
#[derive(Drop, Debug)]
pub enum ReadRun {
    /// The line with its text as it runs, and what that is read as.
    Line(RunLine, Line),
    Refused(Cause),
}

/// What RUN lines come to.
#[derive(Drop, Debug)]
pub enum ReadRuns {
    /// The lines with their texts as they run, and what these are read as.
    Lines(Items<RunLine>, Items<Line>),
    /// Why the first of them that isn't understood is refused.
    Refused(Cause),
}

/// A RUN line, understood.
fn read_run(alloc: Global, test: &Test, texts: &Texts, run: &RunLine) -> Result<ReadRun, NoMemory>
    requires { texts.now.pairs ≡ pairs_of test.now }
    ensures { IfOk result (λ read. read ≡ read_run test.now run.now) }
{
    match expand(
        alloc,
        run.text.as_slice(),
        texts,
        test.substitutions.len(),
        run.line,
    ) {
        Ok(text) => match parse_line(alloc, text.as_slice()) {
            Ok(line) => {
                let run = RunLine {
                    line: run.line,
                    text,
                };
                Ok(ReadRun::Line(run, line))
            }
            Err(ShellFail::Bad(fault)) => Ok(ReadRun::Refused(Cause::Shell(fault.kind))),
            Err(ShellFail::NoMemory) => Err(NoMemory),
        },
        Err(ExpandFail::TooLong) => Ok(ReadRun::Refused(Cause::TooLong)),
        Err(ExpandFail::NoMemory) => Err(NoMemory),
    }
}

/// RUN lines, understood up to the first that is refused.
pub(crate) fn read_runs(alloc: Global, test: &Test, runs: &[RunLine]) -> Result<ReadRuns, NoMemory>
    ensures exact { IfOk result (λ read. read ≡ read_runs test.now runs.now) }
    ensures few { IfOk result (HasAtMost (length runs.now)) }
{
    let texts = texts_of(alloc, test)?;
    let mut heads = Items::new(alloc);
    let mut lines = Items::new(alloc);
    for run in runs {
        match read_run(alloc, test, &texts, run)? {
            ReadRun::Line(head, line) => {
                heads.push(head)?;
                lines.push(line)?;
            }
            ReadRun::Refused(cause) => return Ok(ReadRuns::Refused(cause)),
        }
    }
    Ok(ReadRuns::Lines(heads, lines))
}
