//! The top call.
ghost use Rattle.std.specs.Prelude.{◌≡◌, ◌⊎◌, ◌≤◌, IfOk, IfSome};
ghost use Rattle.tt_outside.specs.Gave.{SameGave};
ghost use Rattle.tt_run.specs.Run.{Failed, stream_of};
ghost use Rattle.opt_words.specs.Step.{texts};
ghost use Rattle.lit_words.specs.Asked.{wanted};
ghost use Rattle.lit_words.specs.Number.{IsShard};
ghost use Rattle.lit_tool.specs.Run.{LitEnds, RunsFrom, ShowsFrom, call, tree};

use crate::answer::{refuse, write_names};
use crate::stop::LitStop;
use crate::tests::{names_from, tests_from};
use lit_words::{LitAsked, LitWordsFail, asked_by};
use run_report::{LIT, LitEnd, are_told, run_and_report};
use std::alloc::Global;
use std::sync::Wait;
use std::thread::Threads;
use tt_base::NoMemory;
use tt_outside::{Crew, Sink, Tree};

/// Runs lit on words, which are without the program's name. With `--show-tests` the names of the tests are shown, with status 0.
/// Else the tests are run and reported: 0 where none failed, and 1 where one did. The status is 2 where the words are refused, the
/// tests can't be found, none is selected or they keep too many bytes; 3 at a fault of what was handed in, and 4 for want of memory.
/// As many hands run the tests as workers are asked for. It waits for programs.
pub fn lit_run<R: Threads + Wait + Sync, T: Tree, C: Crew, O: Sink, E: Sink>(
    rt: &R,
    alloc: Global,
    words: &[String],
    from: &mut T,
    crew: &mut C,
    out: &mut O,
    err: &mut E,
) -> LitEnd
    requires ready { C.ready crew.old }
    ensures ends { LitEnds (texts words.now) (call T.Tree C.Crew O.Sink E.Sink
        from.old from.new crew.old crew.new out.old out.new err.old err.new) result }
    ensures fault { result.status ≡ 3 → Failed T.faults from.old from.new
        ⊎ Failed O.faults out.old out.new ⊎ Failed E.faults err.old err.new }
    ensures steady { T.steady from.old → result.status ≡ 3 →
        Failed O.faults out.old out.new ⊎ Failed E.faults err.old err.new }
    ensures nodes { T.nodes from.new ≡ T.nodes from.old }
    ensures root { T.root from.new ≡ T.root from.old }
    ensures later { T.faults from.old ≤ T.faults from.new }
    ensures gave { SameGave (C.gave crew.new) (C.gave crew.old) }
    ensures ready { C.ready crew.new }
{
    lit_on(rt, alloc, words, from, crew, out, err)
}

/// The same, of which a fault's cause is told above.
fn lit_on<R: Threads + Wait + Sync, T: Tree, C: Crew, O: Sink, E: Sink>(
    rt: &R,
    alloc: Global,
    words: &[String],
    from: &mut T,
    crew: &mut C,
    out: &mut O,
    err: &mut E,
) -> LitEnd
    requires ready { C.ready crew.old }
    ensures ends { LitEnds (texts words.now) (call T.Tree C.Crew O.Sink E.Sink
        from.old from.new crew.old crew.new out.old out.new err.old err.new) result }
    ensures nodes { T.nodes from.new ≡ T.nodes from.old }
    ensures root { T.root from.new ≡ T.root from.old }
    ensures later { T.faults from.old ≤ T.faults from.new }
    ensures gave { SameGave (C.gave crew.new) (C.gave crew.old) }
    ensures ready { C.ready crew.new }
{
    let asked = match asked_by(alloc, words) {
        Ok(asked) => asked,
        Err(LitWordsFail::Bad(fault)) => {
            return LitEnd::untried(alloc, refuse(alloc, &LitStop::Words(fault), err));
        }
        Err(LitWordsFail::NoMemory) => return LitEnd::untried(alloc, LIT.out_of_memory(err)),
    };
    if asked.show {
        return LitEnd::untried(alloc, show(alloc, &asked, from, out, err));
    }
    run(rt, alloc, &asked, from, crew, out, err)
}

/// Shows the names of the tests, and answers the status.
fn show<T: Tree, O: Sink, E: Sink>(
    alloc: Global,
    asked: &LitAsked,
    from: &mut T,
    out: &mut O,
    err: &mut E,
) -> u8
    requires { IfSome asked.now.shard IsShard }
    ensures shows { ShowsFrom (tree T.Tree from.old from.new) (wanted asked.now) result
        (stream_of O.Sink out.old out.new) (stream_of E.Sink err.old err.new) }
    ensures nodes { T.nodes from.new ≡ T.nodes from.old }
    ensures root { T.root from.new ≡ T.root from.old }
    ensures later { T.faults from.old ≤ T.faults from.new }
{
    match names_from(alloc, asked, from) {
        Ok(Ok(names)) => write_names(alloc, names.as_slice(), out, err),
        Ok(Err(stop)) => refuse(alloc, &stop, err),
        Err(NoMemory) => LIT.out_of_memory(err),
    }
}

/// Runs the tests, and reports.
fn run<R: Threads + Wait + Sync, T: Tree, C: Crew, O: Sink, E: Sink>(
    rt: &R,
    alloc: Global,
    asked: &LitAsked,
    from: &mut T,
    crew: &mut C,
    out: &mut O,
    err: &mut E,
) -> LitEnd
    requires workers { (1 ≤ asked.now.workers) × (asked.now.workers ≤ 64) }
    requires shard { IfSome asked.now.shard IsShard }
    requires ready { C.ready crew.old }
    ensures runs { RunsFrom (wanted asked.now) (call T.Tree C.Crew O.Sink E.Sink
        from.old from.new crew.old crew.new out.old out.new err.old err.new) result }
    ensures nodes { T.nodes from.new ≡ T.nodes from.old }
    ensures root { T.root from.new ≡ T.root from.old }
    ensures later { T.faults from.old ≤ T.faults from.new }
    ensures gave { SameGave (C.gave crew.new) (C.gave crew.old) }
    ensures ready { C.ready crew.new }
{
    match tests_from(alloc, asked, from) {
        Ok(Ok(tests)) => {
            if !are_told(asked.detail, tests.as_slice()) {
                return LitEnd::untried(alloc, refuse(alloc, &LitStop::NotText, err));
            }
            run_and_report(rt, alloc, asked, &tests, crew, out, err)
        }
        Ok(Err(stop)) => LitEnd::untried(alloc, refuse(alloc, &stop, err)),
        Err(NoMemory) => LitEnd::untried(alloc, LIT.out_of_memory(err)),
    }
}
