//! What is refused, as data. src/answer.rt has what is told of each.
ghost use Rattle.std.specs.Prelude.{◌≡◌, Err};
ghost use Rattle.filecheck_messages.specs.Refusal.{Settles};
ghost use Rattle.filecheck_messages.specs.declared.refusal.Stop.TheVariants.{Refused};
ghost use Rattle.filecheck_messages.specs.declared.refusal.StepFail.TheVariants.{Stopped};

use crate::spot::Spot;
use check_lines::LineFault;
use filecheck_words::WordsFault;
use make_checks::MakeFault;
use pattern_parse::PatKind;
use tt_base::{Bytes, NoMemory};

/// Why words, check file or input aren't accepted, in the order of docs/PROFILE.md.
#[derive(Drop, Debug)]
pub enum Refusal {
    /// The words, as `--nope`.
    Words(WordsFault),
    /// No file has this name.
    NotFound(Bytes),
    /// It has more bytes than the limit.
    TooLarge(Bytes),
    /// A line of the check file, as `CHECK-COUNT-0: a`.
    BadLine(LineFault, Spot),
    /// `MYCHECK: a` alone: no line holds a directive.
    NoChecks(Bytes),
    /// No directive has this prefix.
    UnusedPrefix(Bytes),
    /// `CHECK: a{{b`, at the byte of the body that shows it.
    BadBody(PatKind, Spot),
    /// `-DX`: the value doesn't define anything.
    BadDefine(Bytes),
    /// The input has no byte.
    IsEmpty(Bytes),
    /// No check file is made from the input, as with `--make-lead=a`.
    BadMake(MakeFault),
}

/// Why a run has no verdict.
#[derive(Drop, Debug)]
pub enum Stop {
    Refused(Refusal),
    /// What has this name couldn't be read.
    NotReadable(Bytes),
}

/// Why a step gave no value.
#[derive(Drop, Debug)]
pub enum StepFail {
    Stopped(Stop),
    NoMemory,
}

impl From<NoMemory> for StepFail {
    ghost use Rattle.std.specs.Prelude.{◌≡◌};
    ghost use Rattle.filecheck_messages.specs.declared.refusal.StepFail.TheVariants.{NoMemory};

    ghost from_gives = { λ _ fail. fail ≡ NoMemory };

    fn from(_: NoMemory) -> StepFail {
        StepFail::NoMemory
    }
}

/// A step that refuses.
pub fn refuse<T>(refusal: Refusal) -> Result<T, StepFail>
    ensures { result ≡ Err (Stopped (Refused refusal)) }
{
    Err(StepFail::Stopped(Stop::Refused(refusal)))
}

/// What a step came to: a value, or why there is none.
pub fn settled<T: Drop>(step: Result<T, StepFail>) -> Result<Result<T, Stop>, NoMemory>
    ensures { Settles step result }
{
    match step {
        Ok(value) => Ok(Ok(value)),
        Err(StepFail::Stopped(stop)) => Ok(Err(stop)),
        Err(StepFail::NoMemory) => Err(NoMemory),
    }
}
