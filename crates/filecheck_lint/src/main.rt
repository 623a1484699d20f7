//! `filecheck_lint FILE ..`: tells the lines of check files that look like directives and are none.
//! All that it says and how it ends is `check_lint`'s; here are the real words, files and streams.
#![tactic(auto)]

mod pages;

use crate::pages::{HELP, VERSION};
use check_lint::{LINT, lint_run};
use std::process::ExitCode;
use tt_main::{Pages, words_or_page};
use tt_real::{StdErr, StdFiles, StdOut};

/// What it tells of itself.
const PAGES: Pages = Pages {
    help: HELP,
    version: VERSION,
};

fn main(rt: HostRuntime) -> ExitCode {
    let mut out = StdOut::new(rt.stdout());
    let mut err = StdErr::new(rt.stderr());
    let words = match words_or_page(&rt, LINT, PAGES, &mut out, &mut err) {
        Ok(words) => words,
        Err(status) => return ExitCode::from(status),
    };
    let mut files = StdFiles::new(&rt);
    ExitCode::from(lint_run(rt.alloc(), words.as_slice(), &mut files, &mut out, &mut err))
}
