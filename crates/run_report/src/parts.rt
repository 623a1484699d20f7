//! The pieces of a report, as they are written.
ghost use Rattle.std.specs.Prelude.{◌≡◌, ◌≤◌, ◌+◌, ◌<◌, [], IfErr, IfOk, OnErr, OnOk, length};
ghost use Rattle.tt_outside.specs.Gave.{SameGave};
ghost use Rattle.tt_run.specs.Run.{Taken, stream_of};
ghost use Rattle.lit_round.specs.Trials.{AreTrials};
ghost use Rattle.lit_pool.specs.Crew.{LeavesHands};
ghost use Rattle.run_report.specs.Run.{PartsWrite, StopsBehind, StopsTests};

use lit_desk::LitDesk;
use lit_pool::{PoolStop, run_all};
use lit_test::Trial;
use lit_words::LitAsked;
use std::alloc::Global;
use std::sync::Wait;
use std::thread::Threads;
use tt_base::Items;
use tt_outside::{Crew, Failed, Sink, Test, write_all};

/// Writes a piece of a report.
#[tactic(auto, using(crate::proofs::PieceLemmas::stops_first, crate::proofs::PieceLemmas::room_left))]
pub(crate) fn write_piece<O: Sink>(piece: &[u8], out: &mut O) -> Result<(), Failed>
    ensures taken { OnOk result (Taken piece.now (stream_of O.Sink out.old out.new)) }
    ensures room { OnOk result (O.room out.old ≤ O.room out.new + length piece.now) }
    ensures stopped { OnErr result (StopsBehind [] piece.now (stream_of O.Sink out.old out.new)) }
{
    write_all(out, piece)
}

/// Runs tests by as many hands of a crew as workers are asked for, and writes the part of each.
pub(crate) fn report_each<R: Threads + Wait + Sync, C: Crew, O: Sink>(
    rt: &R,
    alloc: Global,
    asked: &LitAsked,
    tests: &Items<Test>,
    from: &mut C,
    out: &mut O,
) -> Result<Items<Trial>, PoolStop>
    requires few { length tests.now ≤ 100000 }
    requires workers { (0 < asked.now.workers) × (asked.now.workers ≤ 64) }
    requires ready { C.ready from.old }
    ensures trials { IfOk result (AreTrials (C.gave from.old) 0 tests.now) }
    ensures wrote { IfOk result (PartsWrite asked.now.detail (length tests.now)
        (stream_of O.Sink out.old out.new) (O.room out.new)) }
    ensures stopped { IfErr result (StopsTests [] asked.now.detail tests.now (C.gave from.old)
        (stream_of O.Sink out.old out.new)) }
    ensures hands { LeavesHands asked.now.workers (length tests.now) result (C.hands from.old) (C.hands from.new) }
    ensures gave { SameGave (C.gave from.new) (C.gave from.old) }
    ensures ready { C.ready from.new }
{
    let mut desk = LitDesk {
        out,
        detail: asked.detail,
        tests: tests.len() as u64,
        kept: 0,
    };
    run_all(rt, alloc, tests, asked.workers as u32, from, &mut desk)
}
