//! The answer to words, where readings are given.
ghost use Rattle.std.specs.Prelude.{◌≡◌, ◌≤◌, ◌^◌, IfOk, Ok, Some};
ghost use Rattle.opt_words.specs.Step.{texts};
ghost use Rattle.filecheck_messages.specs.Answer.{answer_to};
ghost use Rattle.filecheck_tool.specs.Answer.{IsAnswer, IsOutcome, IsSoundPlan, file_of, found_by, found_in, input_given, names_of};
ghost use Rattle.filecheck_tool.specs.Program.{IsSound, IsSoundFile};
ghost use Rattle.filecheck_tool.specs.declared.plan.InputPlan.TheVariants.{Check};
ghost use Rattle.filecheck_words.specs.Job.{asked_by};
ghost use Rattle.tt_run.specs.Run.{IsShort};

use crate::check_file::CheckFile;
use crate::file_names::Names;
use crate::making::made_read;
use crate::plan::{InputPlan, plan_on};
use crate::program::AcceptedFile;
use crate::verdict::verdict_read;
use filecheck_messages::{Report, Stop, answer_to, settled};
use filecheck_words::{Input, Job, WordsFail, asked_by};
use generator::input_text;
use std::alloc::Global;
use std::mem::drop;
use tt_base::{Bytes, NoMemory};
use tt_run::{Answer, Reading};

/// The answer to words, where this is what reading the check file and the input gave. A reading that isn't asked for isn't looked
/// at.
pub fn answer_on(
    alloc: Global,
    words: &[String],
    file: Reading,
    read: Reading,
) -> Result<Answer, NoMemory>
    requires file { IsShort (2 ^ 30) file }
    requires read { IsShort (2 ^ 30) read }
    ensures value { IfOk result (IsAnswer (asked_by (texts words.now)) file read) }
    ensures small { IfOk result (λ answer. answer.status ≤ 3) }
{
    let outcome = outcome_on(alloc, words, file, read)?;
    let answer = answered(alloc, outcome)?;
    Ok(answer)
}

/// What is told before it is put into words: each directive that isn't met, or the first refusal.
pub fn outcome_on(
    alloc: Global,
    words: &[String],
    file: Reading,
    read: Reading,
) -> Result<Result<Report, Stop>, NoMemory>
    requires file { IsShort (2 ^ 30) file }
    requires read { IsShort (2 ^ 30) read }
    ensures { IfOk result (IsOutcome (asked_by (texts words.now)) file read) }
{
    let plan = match plan_on(alloc, words, file) {
        Ok(plan) => plan,
        Err(fail) => {
            drop(read);
            return Err(fail);
        }
    };
    let outcome = found_by(alloc, plan, read)?;
    Ok(outcome)
}

/// What is told of what reading the input gave, where there is a plan.
fn found_by(
    alloc: Global,
    plan: Result<InputPlan, Stop>,
    read: Reading,
) -> Result<Result<Report, Stop>, NoMemory>
    requires sound { IfOk plan IsSoundPlan }
    requires short { IsShort (2 ^ 30) read }
    ensures { IfOk result (λ outcome. outcome ≡ found_by plan read) }
{
    match plan {
        Ok(plan) => found_in(alloc, plan, read),
        Err(stop) => Ok(Err(stop)),
    }
}

/// What is told of what reading the input gave.
pub(crate) fn found_in(
    alloc: Global,
    plan: InputPlan,
    read: Reading,
) -> Result<Result<Report, Stop>, NoMemory>
    requires sound { IsSoundPlan plan }
    requires short { IsShort (2 ^ 30) read }
    ensures { IfOk result (λ outcome. outcome ≡ found_in plan read) }
{
    match plan {
        InputPlan::Check(program) => checked(alloc, program, read),
        InputPlan::Make(making, old) => settled(made_read(alloc, making, old, read)),
    }
}

/// The same, where it is checked.
fn checked(
    alloc: Global,
    program: AcceptedFile,
    read: Reading,
) -> Result<Result<Report, Stop>, NoMemory>
    requires sound { IsSound program }
    requires short { IsShort (2 ^ 30) read }
    ensures { IfOk result (λ outcome. outcome ≡ found_in (Check program) read) }
{
    let Ok(read) = input_given(alloc, &program.file, read) else {
        // A call, since a drop in place is proved field by field.
        drop(program);
        return Err(NoMemory);
    };
    settled(verdict_read(alloc, program, read))
}

/// The input that counts: what reading gave, or the one that is made.
fn input_given(alloc: Global, file: &CheckFile, read: Reading) -> Result<Reading, NoMemory>
    requires file { IsSoundFile file.now }
    requires short { IsShort (2 ^ 30) read }
    ensures value { IfOk result (λ given. given ≡ input_given file.now.made read) }
    ensures short { IfOk result (IsShort (2 ^ 30)) }
{
    match file.made {
        Some(count) => Ok(Reading::Whole(input_text(alloc, count)?)),
        None => Ok(read),
    }
}

/// The answer to what is told.
fn answered(alloc: Global, outcome: Result<Report, Stop>) -> Result<Answer, NoMemory>
    ensures value { IfOk result (λ answer. answer ≡ answer_to outcome) }
    ensures small { IfOk result (λ answer. answer.status ≤ 3) }
{
    let told = joined(alloc, &outcome);
    // A call, since a drop in place is proved variant by variant.
    drop(outcome);
    told
}

/// The same; what is told stays.
fn joined(alloc: Global, outcome: &Result<Report, Stop>) -> Result<Answer, NoMemory>
    ensures value { IfOk result (λ answer. answer ≡ answer_to outcome.now) }
    ensures small { IfOk result (λ answer. answer.status ≤ 3) }
{
    let telling = answer_to(alloc, outcome)?;
    let answer = telling.joined(alloc)?;
    Ok(answer)
}

/// The files that the answer to words is read from. There is none of it where the words are refused.
pub fn names(alloc: Global, words: &[String]) -> Result<Option<Names>, NoMemory>
    ensures { IfOk result (λ names. names ≡ names_of (asked_by (texts words.now))) }
{
    match asked_by(alloc, words) {
        Ok(job) => {
            let names = names_of(alloc, &job);
            drop(job);
            Ok(Some(names?))
        }
        Err(WordsFail::Bad(fault)) => {
            drop(fault);
            Ok(None)
        }
        Err(WordsFail::NoMemory) => Err(NoMemory),
    }
}

/// The files that a job is read from.
fn names_of(alloc: Global, job: &Job) -> Result<Names, NoMemory>
    ensures { IfOk result (λ names. Some names ≡ names_of (Ok job.now)) }
{
    match job {
        Job::Check(asked) => Ok(Names {
            check: Some(Bytes::from_slice(alloc, asked.name.as_slice())?),
            input: file_of(alloc, &asked.input)?,
        }),
        Job::Generate(_) => Ok(Names {
            check: None,
            input: None,
        }),
        Job::Make(making) => Ok(Names {
            check: old_of(alloc, &making.old)?,
            input: file_of(alloc, &making.input)?,
        }),
    }
}

/// The check file that is refreshed, if there is one.
fn old_of(alloc: Global, old: &Option<Bytes>) -> Result<Option<Bytes>, NoMemory>
    ensures { IfOk result (λ name. name ≡ old.now) }
{
    match old {
        Some(name) => Ok(Some(Bytes::from_slice(alloc, name.as_slice())?)),
        None => Ok(None),
    }
}

/// The file that an input is, if it is one.
fn file_of(alloc: Global, input: &Input) -> Result<Option<Bytes>, NoMemory>
    ensures { IfOk result (λ name. name ≡ file_of input.now) }
{
    match input {
        Input::Standard => Ok(None),
        Input::Named(name) => Ok(Some(Bytes::from_slice(alloc, name.as_slice())?)),
    }
}
