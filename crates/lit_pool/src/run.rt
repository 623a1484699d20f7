//! A run by the hands of a crew.
ghost use Rattle.std.specs.Prelude.{◌≡◌, ◌<◌, ◌≤◌, IfErr, IfOk, length};
ghost use Rattle.tt_outside.specs.Gave.{SameGave};
ghost use Rattle.lit_claims.specs.Claimed.{SHARES};
ghost use Rattle.lit_round.specs.Trials.{AreTrials};
ghost use Rattle.lit_desk.specs.Desk.{PutFrom};
ghost use Rattle.lit_pool.specs.Crew.{LeavesHands};
ghost use Rattle.lit_pool.specs.Pool.{IsStopped};

use crate::crew::{dismiss_all, hire_all};
use crate::desk::Desk;
use crate::rounds::run_rounds;
use crate::serial::stop;
use crate::stop::{PoolStop, PoolWhy};
use lit_test::Trial;
use std::alloc::Global;
use std::sync::Wait;
use std::thread::Threads;
use tt_base::Items;
use tt_outside::{Crew, Test};

/// Runs tests by as many hands of a crew as there are workers, in rounds of 256, and puts their trials on a desk, in order. Whichever
/// worker runs a test, what is put and answered is told in the words of a run by one hand. A hand that can't have a thread works in
/// this one. It waits for programs.
pub fn run_all<R: Threads + Wait + Sync, C: Crew, D: Desk>(
    rt: &R,
    alloc: Global,
    tests: &Items<Test>,
    workers: u32,
    crew: &mut C,
    desk: &mut D,
) -> Result<Items<Trial>, PoolStop>
    requires few { length tests.now ≤ 100000 }
    requires workers { (0 < workers) × (workers ≤ SHARES) }
    requires ready { C.ready crew.old }
    ensures trials { IfOk result (AreTrials (C.gave crew.old) 0 tests.now) }
    ensures put { IfOk result (λ trials. PutFrom D.took desk.old 0 trials desk.new) }
    ensures stopped { IfErr result (IsStopped D.took D.kept (C.gave crew.old) tests.now desk.old desk.new) }
    ensures hands { LeavesHands workers (length tests.now) result (C.hands crew.old) (C.hands crew.new) }
    ensures seats { C.seats crew.new ≡ C.seats crew.old }
    ensures gave { SameGave (C.gave crew.new) (C.gave crew.old) }
    ensures ready { C.ready crew.new }
{
    let Ok(hands) = hire_all(alloc, workers, tests.len() as u64, crew) else {
        return Err(stop(PoolWhy::NoMemory, Vec::new(alloc), None));
    };
    let (hands, ended) = run_rounds(rt, alloc, &*crew, tests.as_slice(), hands, desk);
    dismiss_all(hands, crew);
    ended
}
