//! `lit_in PATH ..`: what `lit` does, but that FileCheck, `count` and `not` are answered inside and not by programs of their own.
//! All that it says and how it ends is `lit_tool`'s, over the hands of `lit_inproc`.
#![tactic(auto)]

mod pages;

use crate::pages::{HELP, VERSION};
use lit_inproc::InCrew;
use lit_main::{Lines, all_words, base, is_quiet};
use lit_progress::{ProgressCrew, ProgressSink};
use lit_tool::{LIT, lit_run};
use std::io::IsTerminal;
use std::mem::drop;
use std::process::ExitCode;
use tt_main::Pages;
use tt_real::{StdCrew, StdErr, StdOut, StdTree};

/// What it tells of itself.
const PAGES: Pages = Pages {
    help: HELP,
    version: VERSION,
};

// What is large is let go by a call, since a drop in place is proved field by field.
fn main(rt: HostRuntime) -> ExitCode {
    let alloc = rt.alloc();
    let mut out = StdOut::new(rt.stdout());
    let mut err = StdErr::new(rt.stderr());
    let words = match all_words(&rt, LIT, PAGES, &mut out, &mut err) {
        Ok(words) => words,
        Err(status) => return ExitCode::from(status),
    };
    let base = match base(&rt, LIT, &mut err) {
        Ok(base) => base,
        Err(status) => return ExitCode::from(status),
    };
    let is_shown = rt.stderr().is_terminal() && !is_quiet(words.as_slice());
    let Ok(lines) = Lines::new(alloc, rt.stderr(), is_shown) else {
        return ExitCode::from(LIT.out_of_memory(&mut err));
    };
    let Lines {
        out: for_out,
        err: for_err,
        crew: for_crew,
        mut end,
    } = lines;
    let mut tree = StdTree::current(rt, base);
    let mut crew = ProgressCrew::new(InCrew::new(alloc, StdCrew::new(alloc, rt)), for_crew);
    let mut out = ProgressSink::new(out, for_out);
    let mut err = ProgressSink::new(err, for_err);
    let run = lit_run(
        &rt,
        alloc,
        words.as_slice(),
        &mut tree,
        &mut crew,
        &mut out,
        &mut err,
    );
    end.clear();
    let status = run.status;
    drop((run, out, err, crew));
    ExitCode::from(status)
}
