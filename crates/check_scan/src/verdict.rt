//! The verdict of directives on an input.
ghost use Rattle.std.specs.Prelude.{◌≤◌, All, IfOk, OnErr, OnOk, length};
ghost use Rattle.check_group.specs.Changes.{IsReady};
ghost use Rattle.check_scan.specs.Runs.{Binds, BindsPart, LieIn, RunsAll, Tells};

use crate::labels::{next_label, run, run_labelled};
use crate::progress::{Going, Progress};
use crate::subject::Subject;
use check_group::{Check, Fault};
use ere_auto::Steps;
use pattern_vars::Vars;
use std::mem::replace;
use std::sync::ledger::Ledger;
use tt_base::{Items, NoMemory};

/// What is found amiss, in order of the blocks; nothing where each directive is met.
#[derive(Drop, Debug)]
pub struct Verdict {
    pub faults: Items<Fault>,
}

/// The blocks of directives, one behind the other.
fn run_blocks<L: Ledger>(
    subject: &Subject<'_>,
    checks: &[Check],
    var_scope: bool,
    progress: &mut Progress,
    steps: &mut Steps<L>,
) -> Result<(), NoMemory>
    requires here { progress.old.place ≤ length subject.now.text.now }
    requires always_ready { All (IsReady progress.old.vars) subject.now.always.now }
    requires ready { All (IsReady progress.old.vars) checks.now }
    ensures { RunsAll subject.now var_scope checks.now progress.old progress.new result }
{
    let mut rest = checks;
    let mut forget = false;
    while let Some(at) = next_label(rest) {
        let (block, behind) = rest.split_at(at + 1);
        match run_labelled(subject, forget, block, &rest[at], progress, steps) {
            Ok(Going::On) => {}
            Ok(Going::Over) => return Ok(()),
            Err(NoMemory) => return Err(NoMemory),
        }
        rest = behind;
        forget = var_scope;
    }
    run(subject, true, forget, rest, progress, steps)
}

/// What directives find amiss in a text. With `var_scope` each block but the first begins by forgetting the variables whose
/// names don't begin with `$`. The variables are left as the matches bound them; where memory runs out, as those did that
/// were made up to there.
pub fn scan<L: Ledger>(
    subject: &Subject<'_>,
    checks: &[Check],
    var_scope: bool,
    vars: &mut Vars,
    steps: &mut Steps<L>,
) -> Result<Verdict, NoMemory>
    requires always_ready { All (IsReady vars.old) subject.now.always.now }
    requires ready { All (IsReady vars.old) checks.now }
    ensures verdict { IfOk result (Tells subject.now checks.now var_scope vars.old) }
    ensures vars { OnOk result (Binds subject.now checks.now var_scope vars.old vars.new) }
    ensures lie { IfOk result (λ verdict. LieIn subject.now checks.now verdict.faults) }
    ensures part_way { OnErr result (BindsPart subject.now checks.now var_scope vars.old vars.new) }
{
    let mut progress = Progress {
        place: 0,
        vars: replace(vars, Vars::new(subject.alloc, &[])?),
        faults: Items::new(subject.alloc),
    };
    let ran = run_blocks(subject, checks, var_scope, &mut progress, steps);
    let Progress {
        vars: left,
        faults,
        ..
    } = progress;
    *vars = left;
    match ran {
        Ok(()) => Ok(Verdict { faults }),
        Err(NoMemory) => Err(NoMemory),
    }
}
