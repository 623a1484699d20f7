//! A run by one hand.
ghost use Rattle.std.specs.Prelude.{◌≡◌, ◌<◌, ◌≤◌, ◌^◌, ◌++◌, IfErr, IfOk, OnOk, length};
ghost use Rattle.std.specs.List.{range_with_len};
ghost use Rattle.lit_desk.specs.Desk.{PutFrom};
ghost use Rattle.lit_round.specs.Trials.{AreTrials};
ghost use Rattle.lit_pool.specs.Pool.{BeginsSome, CountsAtStop, CountsFor, GoesOn, IsStopped};

use crate::desk::Desk;
use crate::stop::{PoolStop, PoolWhy, why_of};
use lit_test::{Trial, run_test};
use std::alloc::Global;
use tt_base::Items;
use tt_outside::{Runner, Test};

/// Runs tests one after the other, each under its place, and puts the trial of each on a desk before the next begins. It waits for
/// programs.
pub fn run_serial<R: Runner, D: Desk>(
    alloc: Global,
    tests: &Items<Test>,
    hand: &mut R,
    desk: &mut D,
) -> Result<Items<Trial>, PoolStop>
    requires few { length tests.now ≤ 100000 }
    requires room { length tests.now ≤ R.rooms hand.old }
    requires asked { R.asked hand.old < 2 ^ 62 }
    requires ready { R.ready hand.old }
    ensures trials { IfOk result (AreTrials (R.gave hand.old) 0 tests.now) }
    ensures put { IfOk result (λ trials. PutFrom D.took desk.old 0 trials desk.new) }
    ensures begun { OnOk result (R.begun hand.new ≡ R.begun hand.old ++ range_with_len 0 (length tests.now)) }
    ensures counts { IfOk result (CountsFor R.Runner hand.old hand.new) }
    ensures stopped { IfErr result (IsStopped D.took D.kept (R.gave hand.old) tests.now desk.old desk.new) }
    ensures stop_begun { IfErr result (BeginsSome (length tests.now) (R.begun hand.old) (R.begun hand.new)) }
    ensures stop_counts { IfErr result (CountsAtStop R.Runner hand.old hand.new) }
    ensures goes_on { GoesOn R.Runner hand.old hand.new }
{
    let mut trials = Vec::new(alloc);
    let mut place = 0;
    for test in tests.as_slice() {
        // The list gets room before the test begins: a trial that was put is always returned.
        if trials.reserve(1).is_err() {
            return Err(stop(PoolWhy::NoMemory, trials, None));
        }
        let Ok(trial) = run_test(alloc, place, test, hand) else {
            return Err(stop(PoolWhy::NoMemory, trials, None));
        };
        if let Err(why) = desk.put(alloc, place, &trial) {
            return Err(stop(why_of(why), trials, Some(trial)));
        }
        trials.push_reserved(trial);
        place += 1;
    }
    Ok(Items::from_vec(trials))
}

/// A stop with the trials that were put.
pub(crate) fn stop(why: PoolWhy, trials: Vec<Trial>, other: Option<Trial>) -> PoolStop
    ensures { result ≡ record { why = why; trials = trials.items; other = other } }
{
    PoolStop {
        why,
        trials: Items::from_vec(trials),
        other,
    }
}
