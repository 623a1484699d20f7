//! `not [--crash] COMMAND WORDS < INPUT`: runs a command, and turns round whether it succeeds.
//! All that it says and how it ends is `not_count`'s; here are the real words, streams and programs. A terminal as standard input counts
//! as empty.
#![tactic(auto)]

mod pages;

use crate::pages::{HELP, VERSION};
use not_count::{NOT, not_run};
use std::io::{self, IsTerminal};
use std::process::ExitCode;
use tt_main::{Pages, words_or_page};
use tt_real::{ReaderSource, StdCrew, StdErr, StdOut, StdSource};

/// What it tells of itself.
const PAGES: Pages = Pages {
    help: HELP,
    version: VERSION,
};

fn main(rt: HostRuntime) -> ExitCode {
    let alloc = rt.alloc();
    let mut out = StdOut::new(rt.stdout());
    let mut err = StdErr::new(rt.stderr());
    let words = match words_or_page(&rt, NOT, PAGES, &mut out, &mut err) {
        Ok(words) => words,
        Err(status) => return ExitCode::from(status),
    };
    let words = words.as_slice();
    let stdin = rt.stdin();
    let mut crew = StdCrew::new(alloc, rt);
    // Nobody types an input for a command that reads none.
    let status = if stdin.is_terminal() {
        let mut nothing = ReaderSource::new(io::empty());
        not_run(alloc, words, &mut crew, &mut nothing, &mut out, &mut err)
    } else {
        let mut input = StdSource::new(stdin);
        not_run(alloc, words, &mut crew, &mut input, &mut out, &mut err)
    };
    ExitCode::from(status)
}
