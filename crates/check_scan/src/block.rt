//! One block.
ghost use Rattle.std.specs.Prelude.{◌≤◌, All, length};
ghost use Rattle.check_group.specs.Changes.{IsReady};
ghost use Rattle.check_scan.specs.Runs.{RunsBlock};

use crate::closing::{end_block, turn};
use crate::parts::{is_not, part_length};
use crate::progress::{Going, Progress};
use crate::subject::Subject;
use check_group::Check;
use ere_auto::Steps;
use std::sync::ledger::Ledger;
use tt_base::NoMemory;

/// A block; the text ends where it does. `last` says that the block ends where the check file does.
pub(crate) fn run_block<L: Ledger>(
    subject: &Subject<'_>,
    last: bool,
    checks: &[Check],
    progress: &mut Progress,
    steps: &mut Steps<L>,
) -> Result<(), NoMemory>
    requires here { progress.old.place ≤ length subject.now.text.now }
    requires always_ready { All (IsReady progress.old.vars) subject.now.always.now }
    requires ready { All (IsReady progress.old.vars) checks.now }
    ensures { RunsBlock subject.now last checks.now progress.old progress.new result }
{
    let mut since = checks;
    let mut nots = 0;
    loop {
        let (pending, rest) = since.split_at(nots);
        let Some((check, _)) = rest.split_first() else {
            return end_block(subject, last, pending, progress, steps);
        };
        if is_not(check) {
            nots += 1;
        } else {
            let (part, behind) = rest.split_at(part_length(rest));
            match turn(subject, pending, part, progress, steps) {
                Ok(Going::On) => {}
                Ok(Going::Over) => return Ok(()),
                Err(NoMemory) => return Err(NoMemory),
            }
            since = behind;
            nots = 0;
        }
    }
}
