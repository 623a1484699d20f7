//! `lit_changes OLD NEW`: tells what changed between two JSON reports of lit.
//! All that it says and how it ends is `report_changes`'s; here are the real words, files and streams.
#![tactic(auto)]

mod pages;

use crate::pages::{HELP, VERSION};
use report_changes::{CHANGES, changes_run};
use std::process::ExitCode;
use tt_main::{Pages, words_or_page};
use tt_real::{StdErr, StdFiles, StdOut};

/// What it tells of itself.
const PAGES: Pages = Pages {
    help: HELP,
    version: VERSION,
};

fn main(rt: HostRuntime) -> ExitCode {
    let mut out = StdOut::new(rt.stdout());
    let mut err = StdErr::new(rt.stderr());
    let words = match words_or_page(&rt, CHANGES, PAGES, &mut out, &mut err) {
        Ok(words) => words,
        Err(status) => return ExitCode::from(status),
    };
    let mut files = StdFiles::new(&rt);
    ExitCode::from(changes_run(rt.alloc(), words.as_slice(), &mut files, &mut out, &mut err))
}
