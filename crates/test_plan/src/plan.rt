//! What a test's file makes of the test.
ghost use Rattle.std.specs.Prelude.{◌≡◌, ◌≤◌, ◌^◌, IfOk, length};
ghost use Rattle.bool_exprs.specs.View.{exprs_of};
ghost use Rattle.lit_directives.specs.Lists.{AreFree, HasNoRefs};
ghost use Rattle.lit_directives.specs.Script.{script_of, script_view};
ghost use Rattle.test_plan.specs.Plan.{IsBounded, IsSmall, all_hold, by_reading, by_script, is_allowed, one_holds, plan_of};

use crate::cause::Cause;
use crate::runs::{ReadRuns, read_runs};
use bool_exprs::BoolExpr;
use bool_values::holds_in;
use lit_directives::{RunLine, Script, ScriptFail, read_script};
use mini_shell::Line;
use std::alloc::Global;
use tt_base::{Bytes, Items, NoMemory};
use tt_outside::{Reply, Test};

/// Lines that run.
#[derive(Drop, Debug)]
pub struct Runs {
    /// The RUN lines with their texts as they run.
    pub runs: Items<RunLine>,
    /// What these are read as.
    pub lines: Items<Line>,
    /// How often they may be played again.
    pub retries: u32,
    /// Whether they are expected to fail.
    pub may_fail: bool,
}

/// What a test's file makes of the test.
#[derive(Drop, Debug)]
pub enum Plan {
    /// Its features keep it from running.
    NotSupported,
    Unresolved(Cause),
    Run(Runs),
}

/// Whether all of these hold.
fn all_hold(features: &[Bytes], exprs: &[BoolExpr]) -> bool
    requires { AreFree exprs.now }
    ensures { result ≡ all_hold features.now (exprs_of exprs.now) }
{
    let mut rest = exprs;
    while let Some((first, behind)) = rest.split_first() {
        if holds_in(first, features) {
            rest = behind;
        } else {
            return false;
        }
    }
    true
}

/// Whether one of these holds.
fn one_holds(features: &[Bytes], exprs: &[BoolExpr]) -> bool
    requires { AreFree exprs.now }
    ensures { result ≡ one_holds features.now (exprs_of exprs.now) }
{
    let mut rest = exprs;
    while let Some((first, behind)) = rest.split_first() {
        if holds_in(first, features) {
            return true;
        }
        rest = behind;
    }
    false
}

/// Whether the features let a test run.
fn is_allowed(features: &[Bytes], script: &Script) -> bool
    requires { HasNoRefs script.now }
    ensures { result ≡ is_allowed features.now (script_view script.now) }
{
    all_hold(features, script.required.as_slice())
        && !one_holds(features, script.unsupported.as_slice())
}

/// What a script makes of a test.
fn by_script(alloc: Global, test: &Test, script: &Script) -> Result<Plan, NoMemory>
    requires no_refs { HasNoRefs script.now }
    requires few { length script.now.runs ≤ 1000 }
    requires patient { script.now.retries ≤ 100 }
    ensures exact { IfOk result (λ plan. plan ≡ by_script test.now (script_view script.now)) }
    ensures bounds { IfOk result IsBounded }
{
    let features = test.features.as_slice();
    if !is_allowed(features, script) {
        return Ok(Plan::NotSupported);
    }
    match read_runs(alloc, test, script.runs.as_slice())? {
        ReadRuns::Refused(cause) => Ok(Plan::Unresolved(cause)),
        ReadRuns::Lines(runs, lines) => Ok(Plan::Run(Runs {
            runs,
            lines,
            retries: script.retries,
            may_fail: one_holds(features, script.xfail.as_slice()),
        })),
    }
}

/// What the text of a test's file makes of the test.
fn by_text(alloc: Global, test: &Test, text: &[u8]) -> Result<Plan, NoMemory>
    requires { length text.now ≤ 2 ^ 30 }
    ensures exact { IfOk result (λ plan. plan ≡ by_reading test.now (script_of text.now)) }
    ensures bounds { IfOk result IsBounded }
{
    match read_script(alloc, text) {
        Ok(script) => by_script(alloc, test, &script),
        Err(ScriptFail::Bad(fault)) => Ok(Plan::Unresolved(Cause::Script(fault))),
        Err(ScriptFail::NoMemory) => Err(NoMemory),
    }
}

/// What the reading of its file makes of a test.
pub fn plan_of(alloc: Global, test: &Test, reply: &Reply) -> Result<Plan, NoMemory>
    requires small { IsSmall reply.now }
    ensures exact { IfOk result (λ plan. plan ≡ plan_of test.now reply.now) }
    ensures bounds { IfOk result IsBounded }
{
    match reply {
        Reply::Bytes(bytes) => by_text(alloc, test, bytes.as_slice()),
        Reply::Missing => Ok(Plan::Unresolved(Cause::MissingTest)),
        Reply::TooLarge(_) => Ok(Plan::Unresolved(Cause::TooLarge)),
        Reply::Written | Reply::Status { .. } | Reply::Broken => Ok(Plan::Unresolved(
            Cause::Broken,
        )),
    }
}
