//! What a match closes, and what the end of the check file does.
ghost use Rattle.std.specs.Prelude.{◌≡◌, ◌≤◌, ◌<◌, All, IfOk, OnOk, length};
ghost use Rattle.check_group.specs.Changes.{IsReady};
ghost use Rattle.check_group.specs.Continues.{LiesIn};
ghost use Rattle.check_scan.specs.Runs.{Closes, EndsBlock, Excludes, Seeks};

use crate::parts::match_part;
use crate::progress::{Going, Progress};
use crate::subject::Subject;
use check_group::{Check, Fault, Matched, test_region};
use ere_auto::Steps;
use pattern_scan::Context;
use std::sync::ledger::Ledger;
use tt_base::NoMemory;

#[tactic(auto, using(crate::proofs::ClosingLemmas::stays))]
/// Closes the region before a match, or adds the fault of what didn't match. The block goes on from the match's end.
fn close<L: Ledger>(
    subject: &Subject<'_>,
    pending: &[Check],
    outcome: Result<Matched, Fault>,
    progress: &mut Progress,
    steps: &mut Steps<L>,
) -> Result<Going, NoMemory>
    requires here { progress.old.place ≤ length subject.now.text.now }
    requires lies { IfOk outcome (LiesIn progress.old.place (length subject.now.text.now)) }
    requires always_ready { All (IsReady progress.old.vars) subject.now.always.now }
    requires ready { All (IsReady progress.old.vars) pending.now }
    ensures within { progress.new.place ≤ length subject.now.text.now }
    ensures turns { Closes subject.now pending.now outcome progress.old progress.new result }
{
    let m = match outcome {
        Ok(m) => m,
        Err(fault) => {
            progress.faults.push(fault)?;
            return Ok(Going::Over);
        }
    };
    let before = progress.faults.len();
    let region = subject.text.split_at(m.from).0;
    test_nots(subject, pending, region, progress, steps)?;
    if progress.faults.len() == before {
        progress.place = m.to;
        Ok(Going::On)
    } else {
        Ok(Going::Over)
    }
}

/// A positive part, with the NOTs that are pending before it.
pub(crate) fn turn<L: Ledger>(
    subject: &Subject<'_>,
    pending: &[Check],
    part: &[Check],
    progress: &mut Progress,
    steps: &mut Steps<L>,
) -> Result<Going, NoMemory>
    requires here { progress.old.place ≤ length subject.now.text.now }
    requires always_ready { All (IsReady progress.old.vars) subject.now.always.now }
    requires pending_ready { All (IsReady progress.old.vars) pending.now }
    requires some { 0 < length part.now }
    requires ready { All (IsReady progress.old.vars) part.now }
    ensures within { progress.new.place ≤ length subject.now.text.now }
    ensures turns { Seeks subject.now pending.now part.now progress.old progress.new result }
{
    let text = subject.text;
    let place = progress.place;
    match match_part(subject.alloc, part, text, place, &mut progress.vars, steps) {
        Ok(outcome) => close(subject, pending, outcome, progress, steps),
        Err(NoMemory) => Err(NoMemory),
    }
}

/// Tests the implicit NOTs and those that are pending in a slice from the place to its end.
fn test_nots<L: Ledger>(
    subject: &Subject<'_>,
    pending: &[Check],
    slice: &[u8],
    progress: &mut Progress,
    steps: &mut Steps<L>,
) -> Result<(), NoMemory>
    requires here { progress.old.place ≤ length slice.now }
    requires always_ready { All (IsReady progress.old.vars) subject.now.always.now }
    requires ready { All (IsReady progress.old.vars) pending.now }
    ensures told { OnOk result (Excludes subject.now slice.now pending.now progress.old progress.new) }
    ensures vars { progress.new.vars ≡ progress.old.vars }
    ensures place { progress.new.place ≡ progress.old.place }
{
    let context = Context {
        alloc: subject.alloc,
        text: slice,
        vars: &progress.vars,
    };
    let place = progress.place;
    test_region(&context, subject.always, place, &mut progress.faults, steps)?;
    test_region(&context, pending, place, &mut progress.faults, steps)
}

#[tactic(auto, using(crate::proofs::ClosingLemmas::ends_early))]
/// Ends a block: at the end of the check file the NOTs that are pending are tested up to the end of the text.
pub(crate) fn end_block<L: Ledger>(
    subject: &Subject<'_>,
    last: bool,
    pending: &[Check],
    progress: &mut Progress,
    steps: &mut Steps<L>,
) -> Result<(), NoMemory>
    requires here { progress.old.place ≤ length subject.now.text.now }
    requires always_ready { All (IsReady progress.old.vars) subject.now.always.now }
    requires ready { All (IsReady progress.old.vars) pending.now }
    ensures { EndsBlock subject.now last pending.now progress.old progress.new result }
{
    if last {
        test_nots(subject, pending, subject.text, progress, steps)?;
    }
    Ok(())
}
