//! Tests that are run by one hand.
use crate::demo::{Demo, demo_of};
use crate::desks::Noted;
use crate::pools::{with_held, write_header};
use crate::rows::{add_number, are_both, three};
use crate::shown::{add_left, add_status, end_text};
use lit_desk::{LitDesk, MAX_KEPT};
use lit_pool::{Desk, PoolStop, run_serial};
use lit_test::Trial;
use lit_words::Detail;
use std::alloc::Global;
use tt_base::{Bytes, Items, NoMemory};
use tt_outside::{Crew, MemCrew, MemSink, Test};

/// The trials that were put, and the status of a run that wasn't stopped.
fn status_text(alloc: Global, end: &Result<Items<Trial>, PoolStop>) -> Result<Bytes, NoMemory> {
    let mut out = end_text(alloc, end)?;
    if let Ok(trials) = end {
        add_status(alloc, &mut out, trials.as_slice())?;
    }
    Ok(out)
}

/// Runs tests by a hand of a crew, and tells what came of it.
fn ran<D: Desk>(
    alloc: Global,
    tests: &Items<Test>,
    crew: &mut MemCrew,
    desk: &mut D,
) -> Result<Bytes, NoMemory> {
    let room = tests.len() as u64;
    if room > 99 {
        return Err(NoMemory);
    }
    let mut hand = crew.hire(alloc, room)?;
    let end = run_serial(alloc, tests, &mut hand, desk);
    crew.dismiss(hand);
    let text = status_text(alloc, &end);
    drop(end);
    text
}

/// The same, and what the hand did.
fn told_by<D: Desk>(
    alloc: Global,
    tests: &Items<Test>,
    crew: &mut MemCrew,
    desk: &mut D,
) -> Result<Bytes, NoMemory> {
    let mut out = ran(alloc, tests, crew, desk)?;
    for left in crew.hands() {
        add_left(&mut out, left)?;
    }
    Ok(out)
}

/// The same of the tests of a line.
fn told<D: Desk>(alloc: Global, line: &str, desk: &mut D) -> Result<Bytes, NoMemory> {
    let Demo { tests, plan } = demo_of(alloc, line)?;
    let mut crew = MemCrew::new(alloc, plan);
    let told = told_by(alloc, &tests, &mut crew, desk);
    drop(crew);
    drop(tests);
    told
}

/// The same on lit's desk behind the header, whose sink takes so many bytes and whose tests may keep so many; and what the sink
/// holds then.
fn told_on_desk(alloc: Global, capacity: usize, left: u64, line: &str) -> Result<Bytes, NoMemory> {
    let mut out = MemSink::new(alloc, capacity)?;
    let tests = line.split("; ").count() as u64;
    write_header(alloc, &mut out, tests)?;
    let mut desk = LitDesk {
        out: &mut out,
        detail: Detail::Plain,
        tests,
        kept: MAX_KEPT.saturating_sub(left),
    };
    let told = told(alloc, line, &mut desk);
    with_held(told, out.as_slice())
}

/// Whether the tests of a row come to what stands behind its last arrow, where so many bytes are taken and may be kept.
fn is_told_on_desk(alloc: Global, row: &str) -> Result<bool, NoMemory> {
    let Some((setting, line, due)) = three(row) else {
        return Ok(false);
    };
    let (capacity, left) = setting.split_once(" ").unwrap_or(("", ""));
    let capacity = capacity.parse::<usize>().unwrap_or(0);
    let left = left.parse::<u64>().unwrap_or(0);
    are_both(alloc, told_on_desk(alloc, capacity, left, line), due, "")
}

/// How many bytes the sink takes and the tests may keep; the tests, each with the code of its program; and the trials, the
/// status or the stop, what the hand did, and the report.
const ON_DESK: &str =
    "1000 1000 => 0 a.txt: RUN: true; 1 b.txt: RUN: false; 1 c.txt: RUN: false~XFAIL: *; 0 d.txt: RUN: true~REQUIRES: gpu; 0 e.txt: hello => 0 PASS, 1 FAIL, 2 XFAIL, 3 UNSUPPORTED, 4 UNRESOLVED, status 1, begun 01234, asked 11, faults 0~-- Testing: 5 tests --~PASS: demo :: a.txt (1 of 5)~FAIL: demo :: b.txt (2 of 5)~XFAIL: demo :: c.txt (3 of 5)~UNSUPPORTED: demo :: d.txt (4 of 5)~UNRESOLVED: demo :: e.txt (5 of 5)~
1000 1000 => b a.txt: RUN: true; 0 b.txt: RUN: true => 0 UNRESOLVED, 1 PASS, status 1, begun 01, asked 6, faults 1~-- Testing: 2 tests --~UNRESOLVED: demo :: a.txt (1 of 2)~PASS: demo :: b.txt (2 of 2)~
40 1000 => 0 a.txt: RUN: true; 1 b.txt: RUN: false; 0 c.txt: a; 0 d.txt: a; 0 e.txt: a => a fault at 0 PASS, begun 0, asked 3, faults 0~-- Testing: 5 tests --~PASS: demo :: a.t
30 1000 => 0 a.txt: RUN: true => a fault at 0 PASS, begun 0, asked 3, faults 0~-- Testing: 1 tests --~PASS: d
60 1000 => 0 a.txt: RUN: true; 0 b.txt: RUN: true => 0 PASS, a fault at 1 PASS, begun 01, asked 6, faults 0~-- Testing: 2 tests --~PASS: demo :: a.txt (1 of 2)~PASS: de
1000 100 => 0 a.txt: RUN: true; 0 b.txt: RUN: true => 0 PASS, 1 PASS, status 0, begun 01, asked 6, faults 0~-- Testing: 2 tests --~PASS: demo :: a.txt (1 of 2)~PASS: demo :: b.txt (2 of 2)~
1000 99 => 0 a.txt: RUN: true; 0 b.txt: RUN: true; 0 c.txt: RUN: true => 0 PASS, too much at 1 PASS, begun 01, asked 6, faults 0~-- Testing: 3 tests --~PASS: demo :: a.txt (1 of 3)~
1000 49 => 0 a.txt: RUN: true => too much at 0 PASS, begun 0, asked 3, faults 0~-- Testing: 1 tests --~";

#[test]
fn trials_are_put_on_the_desk_in_order_up_to_a_fault(rt: HostRuntime) -> Result<(), NoMemory> {
    for row in ON_DESK.lines() {
        assert!(rt; is_told_on_desk(rt.alloc(), row)?, "{row}");
    }
    Ok(())
}

/// The same on a desk that takes so many trials, with the numbers that were put.
fn told_of_most(alloc: Global, most: u64, line: &str) -> Result<Bytes, NoMemory> {
    let mut desk = Noted {
        numbers: Items::new(alloc),
        most,
    };
    let mut told = told(alloc, line, &mut desk)?;
    told.append(b", put ")?;
    for number in desk.numbers.as_slice() {
        add_number(&mut told, *number)?;
    }
    Ok(told)
}

fn is_told_of_most(alloc: Global, row: &str) -> Result<bool, NoMemory> {
    let Some((most, line, due)) = three(row) else {
        return Ok(false);
    };
    let most = most.parse::<u64>().unwrap_or(0);
    are_both(alloc, told_of_most(alloc, most, line), due, "")
}

/// How many trials a desk takes; the tests; and the trials, the status or the stop, what the hand did, and the numbers that were put.
const ON_NOTES: &str =
    "9 => 0 a: RUN: p; 1 b: RUN: p; 2 c: RUN: p => 0 PASS, 1 FAIL, 2 FAIL, status 1, begun 012, asked 9, faults 0, put 012
2 => 0 a: RUN: p; 1 b: RUN: p; 2 c: RUN: p => 0 PASS, 1 FAIL, no memory at 2 FAIL, begun 012, asked 9, faults 0, put 01
1 => 0 a: RUN: p; 1 b: RUN: p; 2 c: RUN: p => 0 PASS, no memory at 1 FAIL, begun 01, asked 6, faults 0, put 0
0 => 0 a: RUN: p; 1 b: RUN: p => no memory at 0 PASS, begun 0, asked 3, faults 0, put 
9 =>  => status 0, begun , asked 0, faults 0, put ";

#[test]
fn a_desk_that_refuses_ends_the_run_with_the_trial_that_it_was_given(
    rt: HostRuntime,
) -> Result<(), NoMemory> {
    for row in ON_NOTES.lines() {
        assert!(rt; is_told_of_most(rt.alloc(), row)?, "{row}");
    }
    Ok(())
}
