//! The program that words ask for.
ghost use Rattle.std.specs.Prelude.{◌^◌, IfOk, IfSome};
ghost use Rattle.filecheck_tool.specs.Program.{IsSound};
ghost use Rattle.tt_run.specs.Run.{IsShort};

use filecheck_tool::{AcceptedFile, InputPlan, plan_on};
use std::alloc::Global;
use std::mem::drop;
use tt_base::NoMemory;
use tt_run::Reading;

/// The program of the check file that words ask for, where this is what reading it gave; none where they are refused, or ask for
/// something else.
pub(crate) fn program_of(
    alloc: Global,
    words: &[String],
    file: Reading,
) -> Result<Option<AcceptedFile>, NoMemory>
    requires { IsShort (2 ^ 30) file }
    ensures { IfOk result (λ program. IfSome program IsSound) }
{
    match plan_on(alloc, words, file)? {
        Ok(InputPlan::Check(program)) => Ok(Some(program)),
        other => {
            // A call, since a drop in place is proved variant by variant.
            drop(other);
            Ok(None)
        }
    }
}
