//! The top call.
ghost use Rattle.std.specs.Prelude.{◌≡◌, ◌⊎◌, ◌≤◌, ◌<◌, ◌≢◌, ◌+◌, ◌^◌, true, IfOk, IsErr, List, Result, Some, codes};
ghost use Rattle.tt_outside.specs.Transfer.{TakesAtMost};
ghost use Rattle.filecheck_messages.specs.Answer.{answer_to};
ghost use Rattle.tt_run.specs.Frame.{cannot_write};
ghost use Rattle.tt_run.specs.Run.{Failed, IsKept, LacksMemory, Written, files_of, source_of, stream_of};
ghost use Rattle.std.specs.Str.{is_utf8};
ghost use Rattle.opt_words.specs.Step.{texts};
ghost use Rattle.tt_run.specs.Run.{FileRead, IsShort};
ghost use Rattle.filecheck_tool.specs.Answer.{IsSoundPlan};
ghost use Rattle.filecheck_tool.specs.Run.{AreUnread, Checks, InputAsked, OutcomeOf, PlanOf, Reads, ReadsChecks, Reports, job_of};
ghost use Rattle.filecheck_words.specs.Checking.{IsNamed};
ghost use Rattle.filecheck_words.specs.Job.{IsSound as IsSoundJob};

use crate::answer::found_in;
use crate::plan::{InputPlan, plan_of};
use filecheck_messages::{Refusal, Report, Stop, answer_to};
use filecheck_words::{Input, Job, WordsFail, asked_by};
use std::alloc::Global;
use std::mem::drop;
use std::str::from_utf8;
use tt_base::NoMemory;
use tt_outside::{Files, Sink, Source};
use tt_run::{Reading, ToolFrame, read_named, read_source};

/// The name of FileCheck.
pub const FILECHECK: ToolFrame = ToolFrame { name: b"filecheck" };

/// The greatest length of a check file, in bytes.
pub const CHECK_LIMIT: u64 = 16_777_216;

/// The greatest length of an input, in bytes.
pub const INPUT_LIMIT: u64 = 67_108_864;

/// Runs FileCheck on words, which are without the program's name, and answers the status: 0 where the input
/// matches the check file, 1 where it doesn't, 2 where words, check file or input are refused, 3 at a fault of
/// what was handed in, and 4 for want of memory.
pub fn filecheck_run<F: Files, I: Source, O: Sink, E: Sink>(
    alloc: Global,
    words: &[String],
    from: &mut F,
    input: &mut I,
    out: &mut O,
    err: &mut E,
) -> u8
    ensures answer { Checks (texts words.now) F.Files from.old from.new (source_of I.Source input.old input.new)
        result (stream_of O.Sink out.old out.new) (stream_of E.Sink err.old err.new) }
    ensures fault { result ≡ 3 → Failed F.faults from.old from.new ⊎ Failed I.faults input.old input.new
        ⊎ Failed O.faults out.old out.new ⊎ Failed E.faults err.old err.new }
    ensures calm { F.steady from.old → I.steady input.old → result ≡ 3 →
        Failed O.faults out.old out.new ⊎ Failed E.faults err.old err.new }
    ensures unread { IsErr (job_of words.now) → AreUnread from.old from.new input.old input.new }
    ensures memory { LacksMemory (codes "filecheck") result (stream_of O.Sink out.old out.new) (stream_of E.Sink err.old err.new) }
    ensures taken { TakesAtMost (I.left input.old) (I.left input.new) (2 ^ 26 + 1) }
    ensures files_stay { IsKept F.Files from.old from.new }
    ensures no_other { result ≤ 4 }
{
    let Ok(outcome) = outcome_of(alloc, words, from, input) else {
        return FILECHECK.out_of_memory(err);
    };
    let status = tell(alloc, &outcome, out, err);
    // A call, since a drop in place is proved variant by variant.
    drop(outcome);
    status
}

/// Writes what is told, and answers the status, 4 where it wasn't written for want of memory. All memory is taken before.
fn tell<O: Sink, E: Sink>(
    alloc: Global,
    outcome: &Result<Report, Stop>,
    out: &mut O,
    err: &mut E,
) -> u8
    ensures written { result ≢ 4 → Written (cannot_write (codes "filecheck")) (answer_to outcome.now) result
        (stream_of O.Sink out.old out.new) (stream_of E.Sink err.old err.new) }
    ensures memory { LacksMemory (codes "filecheck") result (stream_of O.Sink out.old out.new) (stream_of E.Sink err.old err.new) }
    ensures no_other { result ≤ 4 }
{
    match answer_to(alloc, outcome) {
        Ok(telling) => telling.write(FILECHECK, out, err),
        Err(NoMemory) => FILECHECK.out_of_memory(err),
    }
}

/// What is found amiss in words, check file or input.
fn outcome_of<F: Files, I: Source>(
    alloc: Global,
    words: &[String],
    from: &mut F,
    input: &mut I,
) -> Result<Result<Report, Stop>, NoMemory>
    ensures value { IfOk result (OutcomeOf F.Files from.old from.new
        (source_of I.Source input.old input.new) (job_of words.now)) }
    ensures unread { IsErr (job_of words.now) → AreUnread from.old from.new input.old input.new }
    ensures taken { TakesAtMost (I.left input.old) (I.left input.new) (2 ^ 26 + 1) }
    ensures files_stay { IsKept F.Files from.old from.new }
{
    let plan = plan_from(alloc, words, from)?;
    let outcome = outcome_from(alloc, plan, from, input)?;
    Ok(outcome)
}

/// What the words ask to be done with the input.
fn plan_from<F: Files>(
    alloc: Global,
    words: &[String],
    from: &mut F,
) -> Result<Result<InputPlan, Stop>, NoMemory>
    ensures value { IfOk result (PlanOf F.Files from.old from.new (job_of words.now)) }
    ensures sound { IfOk result (λ plan. IfOk plan IsSoundPlan) }
    ensures unread { IsErr (job_of words.now) → from.new ≡ from.old }
    ensures files_stay { IsKept F.Files from.old from.new }
{
    let job = match asked_by(alloc, words) {
        Ok(job) => job,
        Err(WordsFail::Bad(fault)) => return Ok(Err(Stop::Refused(Refusal::Words(fault)))),
        Err(WordsFail::NoMemory) => return Err(NoMemory),
    };
    plan_by(alloc, job, from)
}

/// What a job asks to be done with the input.
fn plan_by<F: Files>(
    alloc: Global,
    job: Job,
    from: &mut F,
) -> Result<Result<InputPlan, Stop>, NoMemory>
    requires { IsSoundJob job }
    ensures value { IfOk result (PlanOf F.Files from.old from.new (Ok job)) }
    ensures sound { IfOk result (λ plan. IfOk plan IsSoundPlan) }
    ensures files_stay { IsKept F.Files from.old from.new }
{
    let Ok(file) = read_checks(alloc, &job, from) else {
        drop(job);
        return Err(NoMemory);
    };
    plan_of(alloc, job, file)
}

/// What is found amiss in the input, or what is made of it.
fn outcome_from<F: Files, I: Source>(
    alloc: Global,
    plan: Result<InputPlan, Stop>,
    from: &mut F,
    input: &mut I,
) -> Result<Result<Report, Stop>, NoMemory>
    requires { IfOk plan IsSoundPlan }
    ensures value { IfOk result (Reports F.Files from.old from.new I.Source input.old input.new plan) }
    ensures unread { IsErr plan → AreUnread from.old from.new input.old input.new }
    ensures taken { TakesAtMost (I.left input.old) (I.left input.new) (2 ^ 26 + 1) }
    ensures files_stay { IsKept F.Files from.old from.new }
{
    match plan {
        Ok(plan) => {
            let Ok(read) = read_input(alloc, &plan, from, input) else {
                drop(plan);
                return Err(NoMemory);
            };
            found_in(alloc, plan, read)
        }
        Err(stop) => Ok(Err(stop)),
    }
}

/// What reading the check file gave. One that isn't asked for counts as missing.
fn read_checks<F: Files>(alloc: Global, job: &Job, from: &mut F) -> Result<Reading, NoMemory>
    requires { IsSoundJob job.now }
    ensures read { IfOk result (ReadsChecks F.Files from.old from.new job.now) }
    ensures short { IfOk result (IsShort (2 ^ 24)) }
    ensures files_stay { IsKept F.Files from.old from.new }
{
    match job {
        Job::Check(asked) => read_file(alloc, asked.name.as_slice(), CHECK_LIMIT, from),
        Job::Generate(_) => Ok(Reading::Missing),
        Job::Make(making) => match &making.old {
            Some(name) => read_file(alloc, name.as_slice(), CHECK_LIMIT, from),
            None => Ok(Reading::Missing),
        },
    }
}

/// What reading the input gave. One that isn't asked for counts as missing.
fn read_input<F: Files, I: Source>(
    alloc: Global,
    plan: &InputPlan,
    from: &mut F,
    input: &mut I,
) -> Result<Reading, NoMemory>
    requires { IsSoundPlan plan.now }
    ensures read { IfOk result (Reads F.Files from.old from.new I.Source input.old input.new plan.now) }
    ensures short { IfOk result (IsShort (2 ^ 26)) }
    ensures taken { TakesAtMost (I.left input.old) (I.left input.new) (2 ^ 26 + 1) }
    ensures files_stay { IsKept F.Files from.old from.new }
{
    match plan {
        InputPlan::Check(program) => match program.file.made {
            Some(_) => Ok(Reading::Missing),
            None => read_place(alloc, &program.file.asked.input, from, input),
        },
        InputPlan::Make(making, _) => read_place(alloc, &making.input, from, input),
    }
}

/// What reading an input gave.
fn read_place<F: Files, I: Source>(
    alloc: Global,
    place: &Input,
    from: &mut F,
    input: &mut I,
) -> Result<Reading, NoMemory>
    requires { IsNamed place.now }
    ensures read { IfOk result (InputAsked (files_of F.Files from.old from.new)
        (source_of I.Source input.old input.new) (2 ^ 26) (Some place.now)) }
    ensures short { IfOk result (IsShort (2 ^ 26)) }
    ensures taken { TakesAtMost (I.left input.old) (I.left input.new) (2 ^ 26 + 1) }
    ensures files_stay { IsKept F.Files from.old from.new }
{
    match place {
        Input::Standard => read_source(alloc, INPUT_LIMIT, input),
        Input::Named(name) => read_file(alloc, name.as_slice(), INPUT_LIMIT, from),
    }
}

/// What reading the file of a name gave.
#[tactic(auto, using(crate::proofs::TextLemmas::no_text))]
fn read_file<F: Files>(
    alloc: Global,
    name: &[u8],
    limit: u64,
    from: &mut F,
) -> Result<Reading, NoMemory>
    requires text { is_utf8 name.now ≡ true }
    requires small { limit < 2 ^ 62 }
    ensures read { IfOk result (FileRead (files_of F.Files from.old from.new) limit name.now) }
    ensures short { IfOk result (IsShort limit) }
    ensures files_stay { IsKept F.Files from.old from.new }
{
    match from_utf8(name) {
        Ok(name) => read_named(alloc, name, limit, from),
        Err(_) => Ok(Reading::Missing),
    }
}
