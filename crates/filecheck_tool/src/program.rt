//! The check file with its patterns.
ghost use Rattle.std.specs.Prelude.{◌≡◌, ◌^◌, IfOk};
ghost use Rattle.check_program.specs.Ready.{IsScannable};
ghost use Rattle.filecheck_tool.specs.CheckFile.{HasBodies, IsNumber};
ghost use Rattle.filecheck_tool.specs.Program.{ArePatterns, HasReady, IsCompiledTo, IsCompiledWith, IsProgram, IsSound, IsSoundFile, Joins, MakesReady, bad_body, frame_by, fresh_of, joined, started};
ghost use Rattle.filecheck_messages.specs.Refusal.{Ends};
ghost use Rattle.filecheck_tool.specs.Start.{IsStart};
ghost use Rattle.tt_run.specs.Run.{IsShort};

use crate::check_file::{CheckFile, check_file_read};
use crate::start::Start;
use check_group::Check;
use check_program::{CompileFail, CompileOpts, Program as Patterns, compile};
use define_words::{Defined, defined_by, start_vars};
use filecheck_messages::{Refusal, StepFail, behind, refuse};
use pattern_parse::{Formats, Frame, PatFault};
use pattern_vars::{Bindings, Vars};
use std::alloc::Global;
use std::mem::drop;
use tt_base::{Bytes, Items, NoMemory};
use tt_run::Reading;

/// A check file that was accepted.
#[derive(Drop, Debug)]
pub struct AcceptedFile {
    pub file: CheckFile,
    /// Its directives with their patterns.
    pub checks: Items<Check>,
    /// The implicit directives with theirs.
    pub always: Items<Check>,
    /// The variables where checking begins.
    pub vars: Vars,
}

/// What a program has beside its check file.
#[derive(Drop)]
struct Parts {
    checks: Items<Check>,
    always: Items<Check>,
    vars: Vars,
}

/// The program of the check file that reading gave.
pub fn program_read(alloc: Global, start: Start, file: Reading) -> Result<AcceptedFile, StepFail>
    requires short { IsShort (2 ^ 30) file }
    requires sound { IsStart start }
    ensures value { Ends result (IsProgram start file) }
    ensures sound { IfOk result IsSound }
{
    let file = check_file_read(alloc, start, file)?;
    compiled(alloc, file)
}

/// The program of a check file.
fn compiled(alloc: Global, file: CheckFile) -> Result<AcceptedFile, StepFail>
    requires sound { IsSoundFile file }
    ensures value { Ends result (IsCompiledTo file) }
    ensures sound { IfOk result IsSound }
{
    match parts_of(alloc, &file) {
        Ok(parts) => Ok(AcceptedFile {
            file,
            checks: parts.checks,
            always: parts.always,
            vars: parts.vars,
        }),
        Err(fail) => {
            // A call, since a drop in place is proved field by field.
            drop(file);
            Err(fail)
        }
    }
}

/// What the program of a check file has beside it.
fn parts_of(alloc: Global, file: &CheckFile) -> Result<Parts, StepFail>
    requires { HasBodies file.now }
    ensures value { Ends (joined file.now result) (IsCompiledTo file.now) }
    ensures ready { IfOk result (HasReady file.now) }
{
    let values = defined_by(alloc, file.asked.defines.as_slice())?;
    parts_with(alloc, file, values)
}

/// The same: the patterns are compiled, and then the variables are defined.
#[tactic(auto, using(crate::proofs::ProgramLemmas::patterns_stop))]
fn parts_with(alloc: Global, file: &CheckFile, values: Defined) -> Result<Parts, StepFail>
    requires { HasBodies file.now }
    ensures value { Ends (joined file.now result) (IsCompiledWith file.now values) }
    ensures ready { IfOk result (HasReady file.now) }
{
    let Defined { mut known, fresh } = values;
    let patterns = patterns_of(alloc, file, &mut known)?;
    begun(alloc, patterns, fresh)
}

/// The same, where the patterns are compiled.
fn begun(
    alloc: Global,
    patterns: Patterns,
    fresh: Result<Bindings, Bytes>,
) -> Result<Parts, StepFail>
    requires { IsScannable patterns }
    ensures value { Joins patterns (fresh_of fresh) result }
    ensures ready { MakesReady patterns result }
{
    match fresh {
        Ok(fresh) => Ok(started(alloc, patterns, fresh)?),
        Err(value) => refuse(Refusal::BadDefine(value)),
    }
}

/// The same, where each value defines something.
fn started(alloc: Global, patterns: Patterns, fresh: Bindings) -> Result<Parts, NoMemory>
    requires { IsScannable patterns }
    ensures value { IfOk result (λ parts. parts ≡ started patterns fresh) }
    ensures ready { MakesReady patterns result }
{
    let Patterns {
        checks,
        always,
        names,
    } = patterns;
    let vars = start_vars(alloc, names, fresh)?;
    Ok(Parts {
        checks,
        always,
        vars,
    })
}

/// The patterns of a check file's bodies, where these formats are known.
fn patterns_of(alloc: Global, file: &CheckFile, known: &mut Formats) -> Result<Patterns, StepFail>
    requires bodies { HasBodies file.now }
    ensures value { Ends result (ArePatterns file.now known.old) }
    ensures scannable { IfOk result IsScannable }
{
    let asked = &file.asked;
    let opts = CompileOpts {
        fold: asked.fold,
        frame: frame_by(asked.full_lines, asked.strict),
    };
    match compile(
        alloc,
        file.text.as_slice(),
        file.directives.as_slice(),
        asked.implicit.as_slice(),
        &opts,
        known,
    ) {
        Ok(patterns) => Ok(patterns),
        Err(CompileFail::Bad { directive, fault }) => {
            refuse(bad_body(alloc, file, directive, fault)?)
        }
        Err(CompileFail::NoMemory) => Err(StepFail::NoMemory),
    }
}

/// What stands round a match on its line.
fn frame_by(full_lines: bool, strict: bool) -> Frame
    ensures { result ≡ frame_by full_lines strict }
{
    if !full_lines {
        Frame::Open
    } else if strict {
        Frame::Tight
    } else {
        Frame::Spaced
    }
}

/// The refusal of a body, by its number.
fn bad_body(
    alloc: Global,
    file: &CheckFile,
    number: usize,
    fault: PatFault,
) -> Result<Refusal, NoMemory>
    requires bodies { HasBodies file.now }
    requires number { IsNumber file.now number }
    ensures { IfOk result (λ refusal. refusal ≡ bad_body file.now number fault) }
{
    let spot = file.body_spot(alloc, number)?;
    Ok(Refusal::BadBody(fault.kind, behind(spot, fault.at)))
}
