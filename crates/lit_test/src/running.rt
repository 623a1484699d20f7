//! A test, asked request by request.
ghost use Rattle.std.specs.Prelude.{◌≡◌, ◌≢◌, ◌≤◌, ◌^◌, [], IfOk, OnOk};
ghost use Rattle.test_attempts.specs.Hands.{Answered, StaysOn};
ghost use Rattle.test_plan.specs.Plan.{IsBounded};
ghost use Rattle.test_plan.specs.declared.plan.Plan.TheVariants.{Run};
ghost use Rattle.lit_test.specs.Run.{EndsAs, EndsBy};

use crate::ending::{ending_stopped, last_cause, not_supported, unresolved_by};
use crate::outcome::Ending;
use crate::text::Text;
use std::alloc::Global;
use test_attempts::run_attempts;
use test_course::{COUNTED, LIMIT, MAX_KEPT, own_bytes, reply_bytes};
use test_plan::{Cause, Plan, Runs, plan_of};
use tt_base::{Bytes, Items, NoMemory};
use tt_outside::{Entry, Request, Runner, Test};

/// Plays the lines of a test.
fn by_runs<R: Runner>(
    alloc: Global,
    test: &Test,
    runs: &Runs,
    entries: &mut Items<Entry>,
    kept: u64,
    hand: &mut R,
) -> Result<Ending, NoMemory>
    requires bounds { IsBounded (Run runs.now) }
    requires begun { R.begun hand.old ≢ [] }
    requires ready { R.ready hand.old }
    requires kept { kept ≤ 2 ^ 25 }
    ensures ends { IfOk result (EndsBy R.Runner hand.old test.now (Run runs.now) entries.old entries.new kept) }
    ensures answered { OnOk result (Answered R.Runner hand.old hand.new entries.old entries.new) }
    ensures stays { StaysOn R.Runner hand.old hand.new }
{
    let done = run_attempts(
        alloc,
        runs.lines.as_slice(),
        test,
        runs.retries,
        entries,
        kept,
        hand,
    )?;
    let last = last_cause(entries.as_slice());
    let ending = ending_stopped(alloc, runs, &done, last)?;
    Ok(ending)
}

/// Does what a test's file makes of the test.
fn by_plan<R: Runner>(
    alloc: Global,
    test: &Test,
    plan: &Plan,
    entries: &mut Items<Entry>,
    kept: u64,
    hand: &mut R,
) -> Result<Ending, NoMemory>
    requires bounds { IsBounded plan.now }
    requires begun { R.begun hand.old ≢ [] }
    requires ready { R.ready hand.old }
    requires kept { kept ≤ 2 ^ 25 }
    ensures ends { IfOk result (EndsBy R.Runner hand.old test.now plan.now entries.old entries.new kept) }
    ensures answered { OnOk result (Answered R.Runner hand.old hand.new entries.old entries.new) }
    ensures stays { StaysOn R.Runner hand.old hand.new }
{
    match plan {
        Plan::NotSupported => {
            let ending = not_supported(alloc)?;
            Ok(ending)
        }
        Plan::Unresolved(cause) => {
            let ending = unresolved_by(Text::new(alloc), *cause)?;
            Ok(ending)
        }
        Plan::Run(runs) => {
            let ending = by_runs(alloc, test, runs, entries, kept, hand)?;
            Ok(ending)
        }
    }
}

/// Reads the file of the test that was begun, and does what that makes of the test. Its entries are kept.
pub(crate) fn run_begun<R: Runner>(
    alloc: Global,
    test: &Test,
    entries: &mut Items<Entry>,
    hand: &mut R,
) -> Result<Ending, NoMemory>
    requires none { entries.old ≡ [] }
    requires begun { R.begun hand.old ≢ [] }
    requires ready { R.ready hand.old }
    ensures ends { IfOk result (EndsAs R.Runner hand.old test.now entries.new) }
    ensures answered { OnOk result (Answered R.Runner hand.old hand.new [] entries.new) }
    ensures stays { StaysOn R.Runner hand.old hand.new }
{
    let path = Bytes::from_slice(alloc, test.path.as_slice())?;
    let request = Request::ReadFile { path, limit: LIMIT };
    let own = own_bytes(&request);
    if own > MAX_KEPT {
        let unread = unresolved_by(Text::new(alloc), Cause::TooMuch)?;
        return Ok(unread);
    }
    let reply = hand.ask(alloc, entries.as_slice(), &request)?;
    let kept = (own + reply_bytes(&reply)).min(COUNTED);
    let plan = plan_of(alloc, test, &reply)?;
    entries.push(Entry { request, reply })?;
    let ending = by_plan(alloc, test, &plan, entries, kept, hand)?;
    Ok(ending)
}
