//! `filecheck_explain FILE < INPUT`: checks as `filecheck` does, and tells behind each message why it may have come.
//! All that it says and how it ends is `check_explain`'s; here are the real words, files and streams.
#![tactic(auto)]

mod pages;

use crate::pages::{HELP, VERSION};
use check_explain::explain_run;
use filecheck_tool::FILECHECK;
use std::process::ExitCode;
use tt_main::{Pages, no_words, with_variable, words_or_page};
use tt_real::{StdErr, StdFiles, StdOut, StdSource};

/// The variable of the environment whose words stand before those of the command line.
const VARIABLE: &str = "FILECHECK_OPTS";

/// What it tells of itself.
const PAGES: Pages = Pages {
    help: HELP,
    version: VERSION,
};

fn main(rt: HostRuntime) -> ExitCode {
    let mut out = StdOut::new(rt.stdout());
    let mut err = StdErr::new(rt.stderr());
    let words = match words_or_page(&rt, FILECHECK, PAGES, &mut out, &mut err) {
        Ok(words) => words,
        Err(status) => return ExitCode::from(status),
    };
    let words = match with_variable(&rt, VARIABLE, words) {
        Ok(words) => words,
        Err(error) => return ExitCode::from(no_words(&error, FILECHECK, &mut err)),
    };
    let mut files = StdFiles::new(&rt);
    let mut input = StdSource::new(rt.stdin());
    ExitCode::from(explain_run(
        rt.alloc(),
        words.as_slice(),
        &mut files,
        &mut input,
        &mut out,
        &mut err,
    ))
}
