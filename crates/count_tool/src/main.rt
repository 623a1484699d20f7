//! `count N < INPUT`: compares the number of lines of its input with N.
//! All that it says and how it ends is `not_count`'s; here are the real words and streams.
#![tactic(auto)]

mod pages;

use crate::pages::{HELP, VERSION};
use not_count::{COUNT, count_run};
use std::process::ExitCode;
use tt_main::{Pages, words_or_page};
use tt_real::{StdErr, StdOut, StdSource};

/// What it tells of itself.
const PAGES: Pages = Pages {
    help: HELP,
    version: VERSION,
};

fn main(rt: HostRuntime) -> ExitCode {
    let mut out = StdOut::new(rt.stdout());
    let mut err = StdErr::new(rt.stderr());
    let words = match words_or_page(&rt, COUNT, PAGES, &mut out, &mut err) {
        Ok(words) => words,
        Err(status) => return ExitCode::from(status),
    };
    let mut input = StdSource::new(rt.stdin());
    ExitCode::from(count_run(words.as_slice(), &mut input, &mut err))
}
