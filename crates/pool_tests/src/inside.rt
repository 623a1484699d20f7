//! Runs of `lit` whose hands answer FileCheck, `count` and `not` by themselves.
use crate::rows::{add_number, are_both, both, three};
use crate::whole::{REPORT, SUITE, Streams, crew_of, node, sinks_of, tree_of, words};
use lit_inproc::InCrew;
use lit_tool::lit_run;
use std::alloc::Global;
use std::sync::Wait;
use std::thread::Threads;
use tt_base::{Bytes, Items, NoMemory};
use tt_outside::{Finish, MemCrew, MemTree, Planned, Reply, SharedBytes, are_nested};

/// The number of a call that is never reached.
const NEVER: u64 = 99_999;

/// Room for all that these tests write.
const AMPLE: usize = 1 << 12;

/// The status of a run by hands round those of a crew.
fn status_of<R: Threads + Wait + Sync>(
    rt: &R,
    alloc: Global,
    words: &[String],
    tree: &mut MemTree,
    crew: &mut InCrew<MemCrew>,
    streams: &mut Streams,
) -> u8 {
    let end = lit_run(
        rt,
        alloc,
        words,
        tree,
        crew,
        &mut streams.out,
        &mut streams.err,
    );
    let status = end.status;
    drop(end);
    status
}

/// The status, how many hands were dismissed, how many requests these answered, and what was written, errors first.
fn told_of(
    alloc: Global,
    status: u8,
    crew: &InCrew<MemCrew>,
    streams: &Streams,
) -> Result<Bytes, NoMemory> {
    let mut told = Bytes::from_slice(alloc, &[b'0' + status.min(9), b' '])?;
    let mut asked: u64 = 0;
    for count in crew.asked() {
        asked = asked.saturating_add(*count);
    }
    add_number(&mut told, crew.asked().len() as u64)?;
    told.append(b" ")?;
    add_number(&mut told, asked)?;
    told.append(b" ")?;
    told.append(streams.err.as_slice())?;
    told.append(streams.out.as_slice())?;
    Ok(told)
}

/// The same of a line of words, a tree, and a crew whose hands are gone round.
fn told_by<R: Threads + Wait + Sync>(
    rt: &R,
    alloc: Global,
    line: &str,
    tree: &mut MemTree,
    inner: MemCrew,
) -> Result<Bytes, NoMemory> {
    let words = words(alloc, line)?;
    let mut streams = sinks_of(alloc, AMPLE)?;
    let mut crew = InCrew::new(alloc, inner);
    let status = status_of(rt, alloc, words.as_slice(), tree, &mut crew, &mut streams);
    let told = told_of(alloc, status, &crew, &streams);
    drop(crew);
    drop(streams);
    drop(words);
    told
}

/// The tree of a suite with the one test `p.txt`.
fn one_test(alloc: Global) -> Result<MemTree, NoMemory> {
    let mut nodes = Items::new(alloc);
    nodes.push(node(alloc, "lit.suite.toml", SUITE)?)?;
    nodes.push(node(alloc, "p.txt", "")?)?;
    if !are_nested(alloc, nodes.as_slice())? {
        return Err(NoMemory);
    }
    MemTree::new(alloc, b"/w".as_slice(), nodes, &[])
}

/// A reply of a kind: a file's bytes, a program that wrote them, or else Broken.
fn reply_of(alloc: Global, kind: &str, text: &str) -> Result<Reply, NoMemory> {
    let bytes = SharedBytes::new(alloc, both(alloc, text, "")?)?;
    Ok(match kind {
        "file" => Reply::Bytes(bytes),
        "wrote" => Reply::Status {
            finish: Finish::Code(0),
            out: bytes,
            err: SharedBytes::none(),
        },
        _ => {
            drop(bytes);
            Reply::Broken
        }
    })
}

/// The reply of a field, as `2 wrote: foo~`: behind how many entries, and what.
fn planned(alloc: Global, field: &str) -> Result<Planned, NoMemory> {
    let (head, text) = field.split_once(": ").unwrap_or((field, ""));
    let (earlier, kind) = head.split_once(" ").unwrap_or((head, ""));
    let reply = reply_of(alloc, kind, text)?;
    Ok(Planned {
        test: 0,
        earlier: earlier.parse::<u64>().unwrap_or(NEVER),
        reply,
    })
}

/// A crew that answers as a line says.
fn planned_crew(alloc: Global, line: &str) -> Result<MemCrew, NoMemory> {
    let mut plan = Items::new(alloc);
    for field in line.split("; ") {
        plan.push(planned(alloc, field)?)?;
    }
    Ok(MemCrew::new(alloc, plan))
}

/// What the hands in it answer; words; and the status, the number of hands, that of their requests, and what is told.
const RUNS: &str =
    "0 file: RUN: p | FileCheck %s; 2 wrote: foo~; 3 file: CHECK: foo~ => demo => 0 1 4 -- Testing: 1 tests --~PASS: demo :: p.txt (1 of 1)~Testing done: 1 tests~  Passed: 1~
0 file: RUN: p | FileCheck %s; 2 wrote: bar~; 3 file: CHECK: foo~ => -v demo => 1 1 4 -- Testing: 1 tests --~FAIL: demo :: p.txt (1 of 1)~******************** TEST 'demo :: p.txt' FAIL ********************~RUN: line 1: p | FileCheck /w/demo/p.txt~# errors:~/w/demo/p.txt:1:8: error: CHECK: expected string not found in input~CHECK: foo~       ^~<stdin>:1:1: note: scanning from here~bar~^~# status: 1~********************~********************~Failed Tests (1):~  demo :: p.txt~~Testing done: 1 tests~  Failed: 1~
0 file: RUN: p | not FileCheck %s; 2 wrote: bar~; 3 file: CHECK: foo~ => demo => 0 1 4 -- Testing: 1 tests --~PASS: demo :: p.txt (1 of 1)~Testing done: 1 tests~  Passed: 1~
0 file: RUN: p | not not filecheck %s; 2 wrote: foo~; 3 file: CHECK: foo~ => demo => 0 1 4 -- Testing: 1 tests --~PASS: demo :: p.txt (1 of 1)~Testing done: 1 tests~  Passed: 1~
0 file: RUN: p | FileCheck %s; 2 wrote: foo~; 3 broken => demo => 1 1 4 -- Testing: 1 tests --~UNRESOLVED: demo :: p.txt (1 of 1)~********************~Unresolved Tests (1):~  demo :: p.txt~~Testing done: 1 tests~  Unresolved: 1~
0 file: RUN: p | count 1; 2 wrote: foo~ => demo => 0 1 4 -- Testing: 1 tests --~PASS: demo :: p.txt (1 of 1)~Testing done: 1 tests~  Passed: 1~
0 file: RUN: not not p; 2 wrote: foo~ => demo => 0 1 3 -- Testing: 1 tests --~PASS: demo :: p.txt (1 of 1)~Testing done: 1 tests~  Passed: 1~";

fn is_told<R: Threads + Wait + Sync>(rt: &R, alloc: Global, row: &str) -> Result<bool, NoMemory> {
    let Some((plan, line, due)) = three(row) else {
        return Ok(false);
    };
    let crew = planned_crew(alloc, plan)?;
    let mut tree = one_test(alloc)?;
    let told = told_by(rt, alloc, line, &mut tree, crew);
    drop(tree);
    are_both(alloc, told, due, "")
}

#[test]
fn filecheck_count_and_not_are_answered_inside(rt: HostRuntime) -> Result<(), NoMemory> {
    for row in RUNS.lines() {
        assert!(rt; is_told(&rt, rt.alloc(), row)?, "{row}");
    }
    Ok(())
}

/// Whether a suite in which nothing is answered inside is told as ever, behind a head.
fn is_report<R: Threads + Wait + Sync>(
    rt: &R,
    alloc: Global,
    line: &str,
    head: &str,
) -> Result<bool, NoMemory> {
    let mut tree = tree_of(alloc, NEVER)?;
    let crew = crew_of(alloc)?;
    let told = told_by(rt, alloc, line, &mut tree, crew);
    drop(tree);
    are_both(alloc, told, head, REPORT)
}

#[test]
fn what_is_not_answered_inside_is_handed_on(rt: HostRuntime) -> Result<(), NoMemory> {
    for (line, head) in [("-j 1 demo", "1 1 11 "), ("-j 8 demo", "1 8 11 ")] {
        assert!(rt; is_report(&rt, rt.alloc(), line, head)?, "{line}");
    }
    Ok(())
}
