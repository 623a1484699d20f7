//! Three tests of which one is held back until all three were begun: it passes only where workers take tests as they come. Where one
//! thread runs them all, and where each worker has tests of its own, some test waits in vain for one behind it.
use crate::demo::{Demo, demo_of};
use crate::desks::Noted;
use crate::rows::{add_number, are_bytes};
use crate::shown::end_text;
use lit_pool::run_all;
use lit_test::{Outcome, Trial, run_test};
use std::alloc::Global;
use std::sync::Wait;
use std::thread::Threads;
use tt_base::{Bytes, Items, NoMemory};
use tt_outside::{Crew, GateCrew, MemCrew, Test};

/// How often a hand looks whether all were begun.
const TURNS: u32 = 500_000_000;

/// The trials of tests that so many workers run.
fn ran<R: Threads + Wait + Sync>(
    rt: &R,
    alloc: Global,
    workers: u32,
    tests: &Items<Test>,
    crew: &mut GateCrew,
) -> Result<Bytes, NoMemory> {
    if workers == 0 || workers > 64 || tests.len() > 1000 {
        return Err(NoMemory);
    }
    let mut desk = Noted {
        numbers: Items::new(alloc),
        most: 1000,
    };
    let end = run_all(rt, alloc, tests, workers, crew, &mut desk);
    let text = end_text(alloc, &end);
    drop(end);
    text
}

/// A crew over a plan that holds this test back, one of the first three.
fn crew_of(
    alloc: Global,
    demo: Demo,
    held: u64,
    turns: u32,
) -> Result<(Items<Test>, GateCrew), NoMemory> {
    let Demo { tests, plan } = demo;
    if held >= 3 {
        return Err(NoMemory);
    }
    let crew = GateCrew::new(alloc, MemCrew::new(alloc, plan), held, turns)?;
    Ok((tests, crew))
}

/// What comes of three tests that so many workers run, where one is held back for so many looks at most.
fn told<R: Threads + Wait + Sync>(
    rt: &R,
    alloc: Global,
    workers: u32,
    held: u64,
    turns: u32,
) -> Result<Bytes, NoMemory> {
    let demo = demo_of(alloc, "0 a: RUN: p; 0 b: RUN: p; 0 c: RUN: p")?;
    let (tests, mut crew) = crew_of(alloc, demo, held, turns)?;
    let told = ran(rt, alloc, workers, &tests, &mut crew);
    drop(crew);
    drop(tests);
    told
}

#[test]
fn two_workers_take_tests_as_they_come(rt: HostRuntime) -> Result<(), NoMemory> {
    for held in [0, 1, 2] {
        let told = told(&rt, rt.alloc(), 2, held, TURNS);
        assert!(rt; are_bytes(told, b"0 PASS, 1 PASS, 2 PASS, ")?, "{held}");
    }
    Ok(())
}

#[test]
fn one_worker_waits_in_vain_for_the_tests_behind(rt: HostRuntime) -> Result<(), NoMemory> {
    let told = told(&rt, rt.alloc(), 1, 0, 1000);
    assert!(rt; are_bytes(told, b"0 UNRESOLVED, 1 PASS, 2 PASS, ")?);
    Ok(())
}

fn result(trial: &Result<Trial, NoMemory>) -> Result<Outcome, NoMemory> {
    match trial {
        Ok(trial) => Ok(trial.result),
        Err(NoMemory) => Err(NoMemory),
    }
}

/// The result of a test that a hand runs which is hired for it alone.
fn result_of(
    alloc: Global,
    number: u64,
    test: &Test,
    crew: &mut GateCrew,
) -> Result<Outcome, NoMemory> {
    let mut hand = crew.hire(alloc, 1)?;
    let trial = run_test(alloc, number, test, &mut hand);
    drop(hand);
    result(&trial)
}

/// What comes of tests that are run one behind the other, in this order.
fn ran_in_order(
    alloc: Global,
    order: [usize; 3],
    tests: &Items<Test>,
    crew: &mut GateCrew,
) -> Result<Bytes, NoMemory> {
    let mut told = Bytes::new(alloc);
    for number in order {
        let Some(test) = tests.as_slice().get(number) else {
            return Err(NoMemory);
        };
        let result = result_of(alloc, number as u64, test, crew)?;
        add_number(&mut told, number as u64)?;
        told.append(b" ")?;
        told.append(result.name())?;
        told.append(b", ")?;
    }
    Ok(told)
}

/// The same of three tests, of which the first is held back.
fn told_in_order(alloc: Global, order: [usize; 3]) -> Result<Bytes, NoMemory> {
    let demo = demo_of(alloc, "0 a: RUN: p; 0 b: RUN: p; 0 c: RUN: p")?;
    let (tests, mut crew) = crew_of(alloc, demo, 0, 1000)?;
    let told = ran_in_order(alloc, order, &tests, &mut crew);
    drop(crew);
    drop(tests);
    told
}

/// One worker has the first test and the third, the other the second: even where that one is done before, the first waits for the third.
#[test]
fn fixed_shares_wait_in_vain_for_a_test_of_the_same_worker(
    rt: HostRuntime,
) -> Result<(), NoMemory> {
    let told = told_in_order(rt.alloc(), [1, 0, 2]);
    assert!(rt; are_bytes(told, b"1 PASS, 0 UNRESOLVED, 2 PASS, ")?);
    Ok(())
}
