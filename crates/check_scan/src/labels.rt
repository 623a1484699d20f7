//! Blocks by labels.
ghost use Rattle.std.specs.Prelude.{◌≡◌, ◌≤◌, ◌<◌, ◌+◌, ◌^◌, ◌↔◌, IfOk, IfSome, IsTrue, OnOk, All, length};
ghost use Rattle.check_group.specs.Changes.{IsReady, changed};
ghost use Rattle.check_scan.specs.Blocks.{FirstLabel, IsLabel};
ghost use Rattle.check_scan.specs.Runs.{Misses, RunsFrom, RunsUpTo};
ghost use Rattle.check_scan.specs.Verdict.{beginning};
ghost use Rattle.check_scan.specs.declared.progress.Going.TheVariants.{Over};

use crate::block::run_block;
use crate::progress::{Going, Progress};
use crate::subject::Subject;
use check_group::{Check, FaultKind, look};
use ere_auto::Steps;
use pattern_parse::Role;
use pattern_scan::Context;
use pattern_vars::Vars;
use std::sync::ledger::Ledger;
use tt_base::NoMemory;

/// Whether a directive is a label.
fn is_label(check: &Check) -> bool
    ensures { IsTrue result ↔ IsLabel check.now }
{
    matches!(check.demand.role, Role::Label)
}

/// Where the first block's label stands, if the first block isn't the last one.
#[tactic(auto, using(crate::proofs::BlocksLemmas::label_found, crate::proofs::BlocksLemmas::label_none))]
pub(crate) fn next_label(checks: &[Check]) -> Option<usize>
    ensures first { FirstLabel checks.now result }
    ensures small { IfSome result (λ at. at + 1 < 2 ^ 64) }
{
    let mut at = 0;
    while at < checks.len() {
        if is_label(&checks[at]) {
            return Some(at);
        }
        at += 1;
    }
    None
}

#[tactic(auto, using(crate::proofs::VerdictLemmas::start_forgets, crate::proofs::VerdictLemmas::start_keeps))]
/// The start of a block, at which the variables are forgotten or not.
fn begin_block(forget: bool, vars: &mut Vars)
    ensures { vars.new ≡ changed vars.old (beginning forget) }
{
    if forget {
        vars.clear_local();
    }
}

/// A block from its start on.
pub(crate) fn run<L: Ledger>(
    subject: &Subject<'_>,
    last: bool,
    forget: bool,
    checks: &[Check],
    progress: &mut Progress,
    steps: &mut Steps<L>,
) -> Result<(), NoMemory>
    requires here { progress.old.place ≤ length subject.now.text.now }
    requires always_ready { All (IsReady progress.old.vars) subject.now.always.now }
    requires ready { All (IsReady progress.old.vars) checks.now }
    ensures { RunsFrom subject.now last forget checks.now progress.old progress.new result }
{
    begin_block(forget, &mut progress.vars);
    run_block(subject, last, checks, progress, steps)
}

/// Tells that a label isn't found, whatever its search said.
fn missing(label: &Check, _said: FaultKind, progress: &mut Progress) -> Result<Going, NoMemory>
    ensures over { IfOk result (λ turn. turn ≡ Over) }
    ensures told { OnOk result (Misses label.now progress.old progress.new) }
    ensures vars { progress.new.vars ≡ progress.old.vars }
    ensures place { progress.new.place ≡ progress.old.place }
{
    let kind = FaultKind::NotFound {
        from: progress.place,
        done: 0,
    };
    progress.faults.push(label.fault(kind))?;
    Ok(Going::Over)
}

#[tactic(auto, using(crate::proofs::ClosingLemmas::stays))]
/// A block that a label ends: the label is sought first, and the block's text ends where it does. What follows goes on from
/// there. A label that isn't found is a fault, and the block doesn't run.
pub(crate) fn run_labelled<L: Ledger>(
    subject: &Subject<'_>,
    forget: bool,
    checks: &[Check],
    label: &Check,
    progress: &mut Progress,
    steps: &mut Steps<L>,
) -> Result<Going, NoMemory>
    requires here { progress.old.place ≤ length subject.now.text.now }
    requires label_ready { IsReady progress.old.vars label.now }
    requires always_ready { All (IsReady progress.old.vars) subject.now.always.now }
    requires ready { All (IsReady progress.old.vars) checks.now }
    ensures within { IfOk result (λ turn. progress.new.place ≤ length subject.now.text.now) }
    ensures turns { RunsUpTo subject.now forget checks.now label.now progress.old progress.new result }
{
    let context = Context {
        alloc: subject.alloc,
        text: subject.text,
        vars: &progress.vars,
    };
    let to = match look(&context, label, 0, progress.place, steps)? {
        Ok(m) => m.span.to,
        Err(kind) => return missing(label, kind, progress),
    };
    let block = Subject {
        alloc: subject.alloc,
        text: subject.text.split_at(to).0,
        always: subject.always,
    };
    run(&block, false, forget, checks, progress, steps)?;
    progress.place = to;
    Ok(Going::On)
}
