//! Tests that are run by several workers.
use crate::demo::{Demo, demo_of};
use crate::rows::{add, add_number, are_both, are_bytes};
use crate::shown::end_text;
use lit_desk::LitDesk;
use lit_pool::run_all;
use lit_report::header;
use lit_words::Detail;
use std::alloc::Global;
use std::sync::Wait;
use std::thread::Threads;
use tt_base::{Bytes, Items, NoMemory};
use tt_outside::{Left, MemCrew, MemSink, Test, write_all};

/// A number of three digits.
fn add_count(out: &mut Bytes, count: u64) -> Result<(), NoMemory> {
    add_number(out, count / 100 % 10)?;
    add_number(out, count / 10 % 10)?;
    add_number(out, count % 10)
}

/// The numbers of the tests that hands began, in order.
fn begun_by(alloc: Global, hands: &[Left]) -> Result<Vec<u64>, NoMemory> {
    let mut all = Vec::new(alloc);
    for left in hands {
        for number in left.begun.as_slice() {
            if all.push(*number).is_err() {
                return Err(NoMemory);
            }
        }
    }
    all.sort_unstable();
    Ok(all)
}

/// How many tests hands began, and whether these are the first ones, each once.
fn add_begun(alloc: Global, out: &mut Bytes, hands: &[Left]) -> Result<(), NoMemory> {
    let numbers = begun_by(alloc, hands)?;
    add(out, "begun ")?;
    add_count(out, numbers.len() as u64)?;
    let mut next = 0;
    for number in numbers.as_slice() {
        if *number != next {
            return add(out, " amiss");
        }
        next = number.saturating_add(1);
    }
    add(out, ", each once")
}

/// How many requests they answered.
fn add_asked(out: &mut Bytes, hands: &[Left]) -> Result<(), NoMemory> {
    let mut asked: u64 = 0;
    for left in hands {
        asked = asked.saturating_add(left.asked);
    }
    add(out, ", asked ")?;
    add_count(out, asked)
}

/// Writes the header of so many tests. What can't be written counts as want of memory.
pub(crate) fn write_header(alloc: Global, out: &mut MemSink, tests: u64) -> Result<(), NoMemory> {
    let text = header(alloc, Detail::Plain, tests)?;
    write_all(out, text.as_slice()).or(Err(NoMemory))
}

/// Runs tests by so many workers, on lit's desk behind the header, and tells the trials or the stop.
fn ran<R: Threads + Wait + Sync>(
    rt: &R,
    alloc: Global,
    workers: u32,
    tests: &Items<Test>,
    crew: &mut MemCrew,
    out: &mut MemSink,
) -> Result<Bytes, NoMemory> {
    let count = tests.len() as u64;
    if workers == 0 || workers > 64 || count > 1000 {
        return Err(NoMemory);
    }
    write_header(alloc, out, count)?;
    let mut desk = LitDesk {
        out,
        detail: Detail::Plain,
        tests: count,
        kept: 0,
    };
    let end = run_all(rt, alloc, tests, workers, crew, &mut desk);
    let text = end_text(alloc, &end);
    drop(end);
    text
}

/// The same, and how many hands there were, and what they began and asked.
fn told_by<R: Threads + Wait + Sync>(
    rt: &R,
    alloc: Global,
    workers: u32,
    tests: &Items<Test>,
    crew: &mut MemCrew,
    out: &mut MemSink,
) -> Result<Bytes, NoMemory> {
    let mut told = ran(rt, alloc, workers, tests, crew, out)?;
    add_begun(alloc, &mut told, crew.hands())?;
    add_asked(&mut told, crew.hands())?;
    if crew.hands().len() != workers as usize {
        add(&mut told, ", another number of hands")?;
    }
    Ok(told)
}

/// The same of the tests of a demo.
fn told_of<R: Threads + Wait + Sync>(
    rt: &R,
    alloc: Global,
    workers: u32,
    demo: Demo,
    out: &mut MemSink,
) -> Result<Bytes, NoMemory> {
    let Demo { tests, plan } = demo;
    let mut crew = MemCrew::new(alloc, plan);
    let told = told_by(rt, alloc, workers, &tests, &mut crew, out);
    drop(crew);
    drop(tests);
    told
}

/// A text, and behind a newline what a sink holds.
pub(crate) fn with_held(told: Result<Bytes, NoMemory>, held: &[u8]) -> Result<Bytes, NoMemory> {
    let mut told = told?;
    told.append(b"\n")?;
    told.append(held)?;
    Ok(told)
}

/// The same of the tests of a line, and what a sink holds then that takes so many bytes.
fn told<R: Threads + Wait + Sync>(
    rt: &R,
    alloc: Global,
    workers: u32,
    capacity: usize,
    line: &str,
) -> Result<Bytes, NoMemory> {
    let demo = demo_of(alloc, line)?;
    let mut out = MemSink::new(alloc, capacity)?;
    let told = told_of(rt, alloc, workers, demo, &mut out);
    with_held(told, out.as_slice())
}

/// Tests, each with the code of its program, and what comes of them.
const BY_ANY: &str =
    "0 a.txt: RUN: true; 1 b.txt: RUN: false; 1 c.txt: RUN: false~XFAIL: *; 0 d.txt: RUN: true~REQUIRES: gpu; 0 e.txt: hello => 0 PASS, 1 FAIL, 2 XFAIL, 3 UNSUPPORTED, 4 UNRESOLVED, begun 005, each once, asked 011~-- Testing: 5 tests --~PASS: demo :: a.txt (1 of 5)~FAIL: demo :: b.txt (2 of 5)~XFAIL: demo :: c.txt (3 of 5)~UNSUPPORTED: demo :: d.txt (4 of 5)~UNRESOLVED: demo :: e.txt (5 of 5)~
0 a.txt: RUN: true => 0 PASS, begun 001, each once, asked 003~-- Testing: 1 tests --~PASS: demo :: a.txt (1 of 1)~
 => begun 000, each once, asked 000~-- Testing: 0 tests --~";

fn is_told<R: Threads + Wait + Sync>(
    rt: &R,
    alloc: Global,
    workers: u32,
    row: &str,
) -> Result<bool, NoMemory> {
    let (line, due) = row.split_once(" => ").unwrap_or((row, ""));
    are_both(alloc, told(rt, alloc, workers, 1000, line), due, "")
}

#[test]
fn the_report_is_the_same_for_every_number_of_workers(rt: HostRuntime) -> Result<(), NoMemory> {
    for row in BY_ANY.lines() {
        for workers in [1, 2, 8, 64] {
            assert!(rt; is_told(&rt, rt.alloc(), workers, row)?, "{workers}: {row}");
        }
    }
    Ok(())
}

/// So many equal tests.
fn equal_tests(alloc: Global, count: usize) -> Result<Bytes, NoMemory> {
    let mut line = Bytes::new(alloc);
    for _ in 0..count {
        line.append(b"0 a: RUN: p; ")?;
    }
    Ok(line)
}

/// What comes of 300 tests, where the sink has room for the header.
fn told_of_300<R: Threads + Wait + Sync>(rt: &R, alloc: Global) -> Result<Bytes, NoMemory> {
    let line = equal_tests(alloc, 300)?;
    told(
        rt,
        alloc,
        2,
        25,
        str::from_utf8(line.as_slice()).unwrap_or(""),
    )
}

#[test]
fn a_round_of_256_tests_is_run_before_the_first_is_put(rt: HostRuntime) -> Result<(), NoMemory> {
    let due = b"a fault at 0 PASS, begun 256, each once, asked 768\n-- Testing: 300 tests --\n";
    assert!(rt; are_bytes(told_of_300(&rt, rt.alloc()), due)?);
    Ok(())
}
