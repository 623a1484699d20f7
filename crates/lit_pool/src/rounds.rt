//! The rounds of a run.
ghost use Rattle.std.specs.Prelude.{◌≡◌, ◌+◌, ◌<◌, ◌≤◌, IfErr, IfOk, OnOk, length};
ghost use Rattle.std.specs.List.{All};
ghost use Rattle.lit_claims.specs.Claimed.{SHARES};
ghost use Rattle.lit_round.specs.Hands.{IsHandOf};
ghost use Rattle.lit_round.specs.Trials.{AreTrials};
ghost use Rattle.lit_desk.specs.Desk.{PutFrom};
ghost use Rattle.lit_pool.specs.Crew.{AreHired, HandsLeave};
ghost use Rattle.lit_pool.specs.Pool.{IsStopped, RefusesNext, stop_at};

use crate::desk::Desk;
use crate::serial::stop;
use crate::stop::{PoolStop, PoolWhy, why_of};
use lit_desk::DeskStop;
use lit_round::{Ran, run_round};
use lit_test::Trial;
use std::alloc::Global;
use std::thread::Threads;
use tt_base::Items;
use tt_outside::{Crew, Test};

/// How many tests a round has.
const ROUND: usize = 256;

/// How many trials a desk took before it refused one, and why it did.
#[derive(Drop)]
struct Refusal {
    taken: usize,
    why: DeskStop,
}

/// Puts trials on a desk, the first of them at this place.
fn put_all<D: Desk>(
    alloc: Global,
    first: u64,
    trials: &[Trial],
    desk: &mut D,
) -> Result<(), Refusal>
    requires few { first + length trials.now ≤ 100000 }
    ensures put { OnOk result (PutFrom D.took desk.old first trials.now desk.new) }
    ensures refused { IfErr result (RefusesNext D.took D.kept desk.old first trials.now desk.new) }
{
    let mut taken = 0;
    for trial in trials {
        if let Err(why) = desk.put(alloc, first + taken as u64, trial) {
            return Err(Refusal { taken, why });
        }
        taken += 1;
    }
    Ok(())
}

/// A stop where the desk refused one of the trials from a place on: those before it were put, and those behind it are let go.
fn stop_at(mut trials: Vec<Trial>, first: usize, refusal: Refusal) -> PoolStop
    requires within { first + refusal.taken < length trials.items }
    ensures { result ≡ stop_at trials.items (first + refusal.taken) refusal.why }
{
    let place = first + refusal.taken;
    trials.truncate(place + 1);
    let other = trials.pop();
    stop(why_of(refusal.why), trials, other)
}

/// Runs tests by hands that were hired, round by round. The trials of a round are put on the desk, in order, before the next begins.
/// It returns the hands too, however it ended.
pub(crate) fn run_rounds<R: Threads + Sync, C: Crew, D: Desk>(
    rt: &R,
    alloc: Global,
    crew: &C,
    tests: &[Test],
    mut hands: Vec<C::Hand>,
    desk: &mut D,
) -> (Vec<C::Hand>, Result<Items<Trial>, PoolStop>)
    requires few { length tests.now ≤ 100000 }
    requires workers { (0 < length hands.items) × (length hands.items ≤ SHARES) }
    requires hired { AreHired C.Hand.Runner (C.gave crew.now) (length tests.now) hands.items }
    ensures own { All (IsHandOf C.Hand.Runner (C.gave crew.now)) result.0.items }
    ensures count { length result.0.items ≡ length hands.items }
    ensures trials { IfOk result.1 (AreTrials (C.gave crew.now) 0 tests.now) }
    ensures put { IfOk result.1 (λ trials. PutFrom D.took desk.old 0 trials desk.new) }
    ensures stopped { IfErr result.1 (IsStopped D.took D.kept (C.gave crew.now) tests.now desk.old desk.new) }
    ensures left { HandsLeave C.Hand.Runner (length tests.now) result.1 hands.items result.0.items }
{
    let mut trials = Vec::new(alloc);
    let mut first = 0;
    while first < tests.len() {
        let count = (tests.len() - first).min(ROUND);
        let part = tests.split_at(first).1.split_at(count).0;
        let ran = run_round(rt, alloc, crew, first as u64, part, hands);
        hands = ran.hands;
        let Some(mut ran) = ran.trials else {
            return (hands, Err(stop(PoolWhy::NoMemory, trials, None)));
        };
        if trials.append(&mut ran).is_err() {
            return (hands, Err(stop(PoolWhy::NoMemory, trials, None)));
        }
        if let Err(refusal) = put_all(alloc, first as u64, trials.split_at(first).1, desk) {
            return (hands, Err(stop_at(trials, first, refusal)));
        }
        first += count;
    }
    (hands, Ok(Items::from_vec(trials)))
}
