//! A run of tests.
ghost use Rattle.std.specs.Prelude.{◌≡◌, ◌<◌, ◌≤◌, ◌+◌, IfErr, OnOk, length, true};
ghost use Rattle.tt_outside.specs.Gave.{SameGave};
ghost use Rattle.tt_run.specs.Run.{Taken, crew_of, stream_of};
ghost use Rattle.lit_report.specs.Report.{header};
ghost use Rattle.run_report.specs.Run.{HeaderFails, RunEnds, are_told, around};

use crate::ending::{LitEnd, write_end};
use crate::message::{LIT, tell_stop};
use crate::parts::{report_each, write_piece};
use lit_report::header;
use lit_words::{Detail, LitAsked};
use std::alloc::Global;
use std::sync::Wait;
use std::thread::Threads;
use tt_base::Items;
use tt_outside::{Crew, Sink, Test};

/// Writes the header of a report of so many tests; or answers the status of a run that has none.
fn write_header<O: Sink, E: Sink>(
    alloc: Global,
    detail: Detail,
    tests: u64,
    out: &mut O,
    err: &mut E,
) -> Result<(), u8>
    ensures taken { OnOk result (Taken (header detail tests) (stream_of O.Sink out.old out.new)) }
    ensures room { OnOk result (O.room out.old ≤ O.room out.new + length (header detail tests)) }
    ensures calm { OnOk result (err.new ≡ err.old) }
    ensures fails { IfErr result (HeaderFails (header detail tests)
        (stream_of O.Sink out.old out.new) (stream_of E.Sink err.old err.new)) }
{
    let Ok(text) = header(alloc, detail, tests) else {
        return Err(LIT.out_of_memory(err));
    };
    match write_piece(text.as_slice(), out) {
        Ok(()) => Ok(()),
        Err(_) => Err(LIT.cannot_write(err)),
    }
}

/// Runs at most 100,000 tests by hands of a crew, as many as workers are asked for, and reports: 0 or 1 is the report's own status; 2 where
/// the tests keep too many bytes, 3 at a fault of a stream, and 4 for want of memory. It waits for programs.
pub fn run_and_report<R: Threads + Wait + Sync, C: Crew, O: Sink, E: Sink>(
    rt: &R,
    alloc: Global,
    asked: &LitAsked,
    tests: &Items<Test>,
    from: &mut C,
    out: &mut O,
    err: &mut E,
) -> LitEnd
    requires few { length tests.now ≤ 100000 }
    requires workers { (0 < asked.now.workers) × (asked.now.workers ≤ 64) }
    requires ready { C.ready from.old }
    requires told { are_told asked.now.detail tests.now ≡ true }
    ensures ends { RunEnds asked.now.detail asked.now.workers tests.now (around (crew_of C.Crew from.old from.new)
        (stream_of O.Sink out.old out.new) (stream_of E.Sink err.old err.new)) result }
    ensures gave { SameGave (C.gave from.new) (C.gave from.old) }
    ensures ready { C.ready from.new }
{
    let detail = asked.detail;
    let count = tests.len() as u64;
    if let Err(status) = write_header(alloc, detail, count, out, err) {
        return LitEnd::untried(alloc, status);
    }
    let ran = report_each(rt, alloc, asked, tests, from, out);
    match ran {
        Ok(trials) => LitEnd {
            status: write_end(alloc, detail, count, trials.as_slice(), out, err),
            trials,
            other: None,
        },
        Err(stop) => LitEnd {
            status: tell_stop(stop.why, err),
            trials: stop.trials,
            other: stop.other,
        },
    }
}
