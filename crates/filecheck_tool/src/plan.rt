//! What is to be done with the input, once the check file is read.
ghost use Rattle.std.specs.Prelude.{◌≡◌, ◌≤◌, ◌^◌, IfOk, length};
ghost use Rattle.opt_words.specs.Step.{texts};
ghost use Rattle.filecheck_messages.specs.Refusal.{Gives};
ghost use Rattle.filecheck_tool.specs.Answer.{IsChecking, IsPlan, IsPlanOf, IsSoundPlan, make_plan, old_read};
ghost use Rattle.filecheck_tool.specs.Start.{IsStart, start_made};
ghost use Rattle.filecheck_words.specs.Job.{IsSound as IsSoundJob, asked_by};
ghost use Rattle.filecheck_words.specs.Making.{HasTextNames};
ghost use Rattle.generator.specs.Generated.{checks_text};
ghost use Rattle.tt_run.specs.Run.{IsShort};
ghost use Rattle.tt_run.specs.declared.reading.Reading.TheVariants.{Whole};

use crate::check_file::whole;
use crate::program::{AcceptedFile, program_read};
use crate::start::{Start, start_made};
use filecheck_messages::{Refusal, StepFail, Stop, settled};
use filecheck_words::{Job, Making, WordsFail, asked_by};
use generator::checks_text;
use std::alloc::Global;
use std::mem::drop;
use tt_base::{Bytes, NoMemory};
use tt_run::Reading;

/// What is to be done with the input.
#[derive(Drop, Debug)]
pub enum InputPlan {
    /// It is checked by a program.
    Check(AcceptedFile),
    /// A check file is made of it, behind what is kept of this one.
    Make(Making, Bytes),
}

/// What words ask to be done with the input, where this is what reading the check file gave.
pub fn plan_on(
    alloc: Global,
    words: &[String],
    file: Reading,
) -> Result<Result<InputPlan, Stop>, NoMemory>
    requires { IsShort (2 ^ 30) file }
    ensures value { IfOk result (IsPlan (asked_by (texts words.now)) file) }
    ensures sound { IfOk result (λ plan. IfOk plan IsSoundPlan) }
{
    match asked_by(alloc, words) {
        Ok(job) => plan_of(alloc, job, file),
        Err(WordsFail::Bad(fault)) => Ok(Err(Stop::Refused(Refusal::Words(fault)))),
        Err(WordsFail::NoMemory) => Err(NoMemory),
    }
}

/// The same, where the words are accepted.
pub(crate) fn plan_of(
    alloc: Global,
    job: Job,
    file: Reading,
) -> Result<Result<InputPlan, Stop>, NoMemory>
    requires job { IsSoundJob job }
    requires short { IsShort (2 ^ 30) file }
    ensures value { IfOk result (IsPlanOf job file) }
    ensures sound { IfOk result (λ plan. IfOk plan IsSoundPlan) }
{
    match job {
        Job::Check(asked) => checking(alloc, Start { asked, made: None }, file),
        Job::Generate(count) => generated(alloc, count),
        Job::Make(making) => settled(make_plan(alloc, making, file)),
    }
}

/// To check by a check file, where this is what reading it gave.
fn checking(alloc: Global, start: Start, file: Reading) -> Result<Result<InputPlan, Stop>, NoMemory>
    requires start { IsStart start }
    requires short { IsShort (2 ^ 30) file }
    ensures value { IfOk result (IsChecking start file) }
    ensures sound { IfOk result (λ plan. IfOk plan IsSoundPlan) }
{
    match program_read(alloc, start, file) {
        Ok(program) => Ok(Ok(InputPlan::Check(program))),
        Err(StepFail::Stopped(stop)) => Ok(Err(stop)),
        Err(StepFail::NoMemory) => Err(NoMemory),
    }
}

/// To check by a check file of so many directives, which is made.
fn generated(alloc: Global, count: u64) -> Result<Result<InputPlan, Stop>, NoMemory>
    requires least { 1 ≤ count }
    requires most { count ≤ 20000 }
    ensures value { IfOk result (IsChecking (start_made count) (Whole (checks_text count))) }
    ensures sound { IfOk result (λ plan. IfOk plan IsSoundPlan) }
{
    let text = checks_text(alloc, count)?;
    let start = start_made(alloc, count)?;
    checking(alloc, start, Reading::Whole(text))
}

/// To make a check file, where reading the old one gave this.
fn make_plan(alloc: Global, making: Making, file: Reading) -> Result<InputPlan, StepFail>
    requires making { HasTextNames making }
    requires short { IsShort (2 ^ 30) file }
    ensures value { Gives (λ plan. plan) result (make_plan making file) }
    ensures sound { IfOk result IsSoundPlan }
{
    match old_read(alloc, &making.old, file) {
        Ok(old) => Ok(InputPlan::Make(making, old)),
        Err(fail) => {
            // A call, since a drop in place is proved field by field.
            drop(making);
            Err(fail)
        }
    }
}

/// The check file that is refreshed, where reading it gave this. There is nothing in it where none is.
fn old_read(alloc: Global, name: &Option<Bytes>, file: Reading) -> Result<Bytes, StepFail>
    requires { IsShort (2 ^ 30) file }
    ensures value { Gives (λ old. old) result (old_read name.now file) }
    ensures short { IfOk result (λ old. length old ≤ 2 ^ 30) }
{
    match name {
        Some(name) => whole(alloc, name.as_slice(), file),
        None => Ok(Bytes::new(alloc)),
    }
}
