//! What a report says of the results of tests, and what a desk writes of it.
use crate::pools::write_header;
use crate::rows::{are_both, both, three};
use lit_desk::{DeskStop, LitDesk, MAX_KEPT};
use lit_report::{Reported, end_of, header, part_of, status_of};
use lit_words::Detail;
use std::alloc::Global;
use test_outcome::Outcome;
use tt_base::{Bytes, Items, NoMemory};
use tt_outside::MemSink;

/// A test that was run.
#[derive(Drop)]
struct Ended {
    name: Bytes,
    outcome: Outcome,
    text: Bytes,
}

impl Reported for Ended {
    ghost told = { λ ended. record { name = ended.name; result = ended.outcome; text = ended.text } };

    fn name(&self) -> &[u8] {
        self.name.as_slice()
    }

    fn outcome(&self) -> Outcome {
        self.outcome
    }

    fn add_text(&self, text: &mut Bytes) -> Result<(), NoMemory> {
        text.append(self.text.as_slice())
    }
}

/// The result of this name.
fn outcome_of(name: &str) -> Option<Outcome> {
    match name {
        "PASS" => Some(Outcome::Pass),
        "FLAKYPASS" => Some(Outcome::Flakypass),
        "FAIL" => Some(Outcome::Fail),
        "XFAIL" => Some(Outcome::Xfail),
        "XPASS" => Some(Outcome::Xpass),
        "UNSUPPORTED" => Some(Outcome::Unsupported),
        "UNRESOLVED" => Some(Outcome::Unresolved),
        _ => None,
    }
}

/// The test of a field, as `FAIL b.txt`, or `FAIL b.txt: TRANSCRIPT`.
fn test_of(alloc: Global, field: &str) -> Result<Option<Ended>, NoMemory> {
    let Some((result, rest)) = field.split_once(" ") else {
        return Ok(None);
    };
    let Some(outcome) = outcome_of(result) else {
        return Ok(None);
    };
    let (file, text) = rest.split_once(": ").unwrap_or((rest, ""));
    let mut name = Bytes::from_slice(alloc, b"demo :: ".as_slice())?;
    name.append(file.as_bytes())?;
    Ok(Some(Ended {
        name,
        outcome,
        text: both(alloc, text, "")?,
    }))
}

/// The tests of a line, with semicolons between them.
fn all_ended(alloc: Global, line: &str) -> Result<Items<Ended>, NoMemory> {
    let mut tests = Items::new(alloc);
    for field in line.split("; ") {
        if let Some(test) = test_of(alloc, field)? {
            tests.push(test)?;
        }
    }
    Ok(tests)
}

fn detail_of(option: &str) -> Detail {
    match option {
        "-q" => Detail::Quiet,
        "-a" => Detail::Whole,
        "-v" => Detail::Verbose,
        _ => Detail::Plain,
    }
}

/// The whole report of tests.
fn report(alloc: Global, detail: Detail, tests: &[Ended]) -> Result<Bytes, NoMemory> {
    let count = tests.len() as u64;
    let mut text = header(alloc, detail, count)?;
    let mut place = 0;
    for test in tests {
        if place < 1000 {
            text.append(part_of(alloc, detail, count, place, test)?.as_slice())?;
            place += 1;
        }
    }
    text.append(end_of(alloc, detail, count, tests)?.as_slice())?;
    Ok(text)
}

/// Whether the option and tests of a row give the report behind its last arrow, which a status stands before.
fn is_reported(alloc: Global, row: &str) -> Result<bool, NoMemory> {
    let Some((option, line, due)) = three(row) else {
        return Ok(false);
    };
    let Some((status, due)) = due.split_once(" ") else {
        return Ok(false);
    };
    let tests = all_ended(alloc, line)?;
    let status_due = if status == "1" { 1 } else { 0 };
    if status_of(tests.as_slice()) != status_due {
        return Ok(false);
    }
    are_both(
        alloc,
        report(alloc, detail_of(option), tests.as_slice()),
        due,
        "",
    )
}

/// An option, tests, and the status with the report.
const REPORTS: &str =
    "- => PASS a.txt; FAIL b.txt; XFAIL c.txt; UNSUPPORTED d.txt; UNRESOLVED e.txt => 1 -- Testing: 5 tests --~PASS: demo :: a.txt (1 of 5)~FAIL: demo :: b.txt (2 of 5)~XFAIL: demo :: c.txt (3 of 5)~UNSUPPORTED: demo :: d.txt (4 of 5)~UNRESOLVED: demo :: e.txt (5 of 5)~********************~Unresolved Tests (1):~  demo :: e.txt~~Failed Tests (1):~  demo :: b.txt~~Testing done: 5 tests~  Unsupported: 1~  Passed: 1~  Expectedly Failed: 1~  Unresolved: 1~  Failed: 1~
-q => PASS a.txt; FAIL b.txt; XFAIL c.txt; UNSUPPORTED d.txt; UNRESOLVED e.txt => 1 FAIL: demo :: b.txt (2 of 5)~UNRESOLVED: demo :: e.txt (5 of 5)~********************~Unresolved Tests (1):~  demo :: e.txt~~Failed Tests (1):~  demo :: b.txt~~
-v => FAIL p.txt: RUN: line 1: p1 | p2 && p3~# status: 3~# output:~y~ => 1 -- Testing: 1 tests --~FAIL: demo :: p.txt (1 of 1)~******************** TEST 'demo :: p.txt' FAIL ********************~RUN: line 1: p1 | p2 && p3~# status: 3~# output:~y~********************~********************~Failed Tests (1):~  demo :: p.txt~~Testing done: 1 tests~  Failed: 1~
- => FAIL b.txt; UNSUPPORTED d.txt => 1 -- Testing: 2 tests --~FAIL: demo :: b.txt (1 of 2)~UNSUPPORTED: demo :: d.txt (2 of 2)~********************~Failed Tests (1):~  demo :: b.txt~~Testing done: 2 tests~  Unsupported: 1~  Failed: 1~
- =>  => 0 -- Testing: 0 tests --~Testing done: 0 tests~
- => FLAKYPASS f.txt => 0 -- Testing: 1 tests --~FLAKYPASS: demo :: f.txt (1 of 1)~Testing done: 1 tests~  Passed With Retry: 1~
-q => XPASS x.txt; FLAKYPASS f.txt => 1 XPASS: demo :: x.txt (1 of 2)~********************~Unexpectedly Passed Tests (1):~  demo :: x.txt~~
-a => UNSUPPORTED d.txt: # not supported~ => 0 -- Testing: 1 tests --~UNSUPPORTED: demo :: d.txt (1 of 1)~******************** TEST 'demo :: d.txt' UNSUPPORTED ********************~# not supported~********************~Testing done: 1 tests~  Unsupported: 1~
-v => PASS a.txt: RUN: line 1: true~ => 0 -- Testing: 1 tests --~PASS: demo :: a.txt (1 of 1)~Testing done: 1 tests~  Passed: 1~";

#[test]
fn a_report_tells_each_test_and_their_numbers(rt: HostRuntime) -> Result<(), NoMemory> {
    for row in REPORTS.lines() {
        assert!(rt; is_reported(rt.alloc(), row)?, "{row}");
    }
    Ok(())
}

/// What a desk answers to the first of five tests, with so many bytes kept.
fn put(alloc: Global, before: u64, out: &mut MemSink, test: &Ended) -> &'static str {
    let mut desk = LitDesk {
        out,
        detail: Detail::Plain,
        tests: 5,
        kept: before,
    };
    match desk.put(alloc, 0, 7, test) {
        Ok(()) => "taken",
        Err(DeskStop::SinkFault) => "fault",
        Err(DeskStop::TooMuch) => "too much",
        Err(DeskStop::NoMemory) => "no memory",
    }
}

/// The same of the test `a.txt`, which passed.
fn put_passed(alloc: Global, before: u64, out: &mut MemSink) -> Result<&'static str, NoMemory> {
    match test_of(alloc, "PASS a.txt")? {
        Some(test) => Ok(put(alloc, before, out, &test)),
        None => Ok("nothing"),
    }
}

/// Whether a desk answers so behind the header, and its sink of so many bytes then holds this.
fn is_put(
    alloc: Global,
    capacity: usize,
    before: u64,
    due: (&str, &str),
) -> Result<bool, NoMemory> {
    let mut out = MemSink::new(alloc, capacity)?;
    write_header(alloc, &mut out, 5)?;
    let answer = put_passed(alloc, before, &mut out)?;
    Ok(answer == due.0 && out.as_slice() == due.1.as_bytes())
}

#[test]
fn a_desk_writes_up_to_a_fault_and_keeps_up_to_2_gib(rt: HostRuntime) -> Result<(), NoMemory> {
    let whole = "-- Testing: 5 tests --\nPASS: demo :: a.txt (1 of 5)\n";
    let front = "-- Testing: 5 tests --\nPASS: demo :: a.t";
    let alloc = rt.alloc();
    assert!(rt; is_put(alloc, 100, MAX_KEPT - 7, ("taken", whole))?);
    assert!(rt; is_put(alloc, 40, 0, ("fault", front))?);
    assert!(rt;
        is_put(
            alloc,
            100,
            MAX_KEPT - 6,
            ("too much", "-- Testing: 5 tests --\n")
        )?
    );
    Ok(())
}
