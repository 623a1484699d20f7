//! A check file that is made from an input.
ghost use Rattle.std.specs.Prelude.{◌≡◌, ◌≤◌, ◌^◌, length};
ghost use Rattle.filecheck_messages.specs.Refusal.{Gives, accepted};
ghost use Rattle.filecheck_tool.specs.Making.{checks_made, made_behind, made_read};
ghost use Rattle.make_checks.specs.Made.{refreshed};
ghost use Rattle.tt_run.specs.Run.{IsShort};

use crate::check_file::whole;
use crate::verdict::{filled, input_name};
use filecheck_messages::{Refusal, Report, StepFail, refuse};
use filecheck_words::Making;
use make_checks::{MakeFail, refresh_file};
use std::alloc::Global;
use std::mem::drop;
use tt_base::Bytes;
use tt_run::Reading;

/// The check file that an input makes, by what reading it gave, behind what is kept of an old one.
pub(crate) fn made_read(
    alloc: Global,
    making: Making,
    old: Bytes,
    read: Reading,
) -> Result<Report, StepFail>
    requires old_short { length old ≤ 2 ^ 30 }
    requires short { IsShort (2 ^ 30) read }
    ensures { Gives (λ report. report) result (made_read making old read) }
{
    let told = made_of(alloc, &making, old.as_slice(), read);
    // A call, since a drop in place is proved field by field.
    drop(making);
    told
}

/// The same; what is asked for stays.
fn made_of(alloc: Global, making: &Making, old: &[u8], read: Reading) -> Result<Report, StepFail>
    requires old_short { length old.now ≤ 2 ^ 30 }
    requires short { IsShort (2 ^ 30) read }
    ensures { Gives (λ report. report) result (made_read making.now old.now read) }
{
    let name = input_name(&making.input);
    let bytes = whole(alloc, name, read)?;
    let output = filled(alloc, making.allow_empty, name, bytes)?;
    made_behind(alloc, making, old, output)
}

/// The check file that an input makes, behind what is kept of an old one.
fn made_behind(
    alloc: Global,
    making: &Making,
    old: &[u8],
    output: Bytes,
) -> Result<Report, StepFail>
    requires old_short { length old.now ≤ 2 ^ 30 }
    requires short { length output ≤ 2 ^ 30 }
    ensures { Gives (λ report. report) result (made_behind making.now old.now output) }
{
    match refresh_file(alloc, old, output, making.lead.as_slice()) {
        Ok(file) => Ok(Report::Checks(file)),
        Err(MakeFail::Bad(fault)) => refuse(Refusal::BadMake(fault)),
        Err(MakeFail::NoMemory) => Err(StepFail::NoMemory),
    }
}
