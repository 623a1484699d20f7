//! How a run of lit ends.
ghost use Rattle.std.specs.Prelude.{◌≡◌, IfOk, map, true};
ghost use Rattle.tt_run.specs.Run.{stream_of};
ghost use Rattle.std.specs.List.{list_all};
ghost use Rattle.lit_json.specs.Trials.{is_text, test_of};
ghost use Rattle.lit_pool.specs.Pool.{told_of};
ghost use Rattle.run_report.specs.Run.{ReportEnds, are_told, end_text, untried};

use crate::message::LIT;
use crate::parts::write_piece;
use lit_json::{is_text, to_json};
use lit_pool::{ReportedTrial, reported};
use lit_report::{end_of, status_of};
use lit_test::Trial;
use lit_words::Detail;
use std::alloc::Global;
use tt_base::{Bytes, Items, NoMemory};
use tt_outside::{Sink, Test};

/// How a run of lit ends: its status, the trials of the tests that were reported, in order, and that of the next one, where it
/// was run and couldn't be reported.
#[derive(Drop, Debug)]
pub struct LitEnd {
    pub status: u8,
    pub trials: Items<Trial>,
    pub other: Option<Trial>,
}

impl LitEnd {
    /// The end of a run in which no test was reported. It takes no memory.
    pub fn untried(alloc: Global, status: u8) -> LitEnd
        ensures { result ≡ untried status }
    {
        LitEnd {
            status,
            trials: Items::new(alloc),
            other: None,
        }
    }
}

/// Whether all names and paths are UTF-8.
fn are_text(tests: &[Test]) -> bool
    ensures { result ≡ list_all is_text tests.now }
{
    tests.iter().all(|test| is_text(test))
}

/// Whether a report of this detail can tell of all tests: one in JSON needs names and paths that are UTF-8. It takes no memory.
pub fn are_told(detail: Detail, tests: &[Test]) -> bool
    ensures { result ≡ are_told detail tests.now }
{
    match detail {
        Detail::Json => are_text(tests),
        Detail::Quiet | Detail::Whole | Detail::Verbose | Detail::Plain => true,
    }
}

/// The end of a report of so many tests, whose trials are given once more as it tells of them. In JSON it is the whole report.
fn end_text(
    alloc: Global,
    detail: Detail,
    count: u64,
    trials: &[Trial],
    told: &[ReportedTrial<'_>],
) -> Result<Bytes, NoMemory>
    requires text { are_told detail (map test_of trials.now) ≡ true }
    requires told { map (λ one. told_of one.trial.now) told.now ≡ map told_of trials.now }
    ensures { IfOk result (λ text. text ≡ end_text detail count trials.now) }
{
    match detail {
        Detail::Json => to_json(alloc, trials),
        Detail::Quiet | Detail::Whole | Detail::Verbose | Detail::Plain => {
            end_of(alloc, detail, count, told)
        }
    }
}

/// Writes the end of a report of so many tests, and answers the status of the run.
pub(crate) fn write_end<O: Sink, E: Sink>(
    alloc: Global,
    detail: Detail,
    count: u64,
    trials: &[Trial],
    out: &mut O,
    err: &mut E,
) -> u8
    requires { are_told detail (map test_of trials.now) ≡ true }
    ensures { ReportEnds detail count trials.now result
        (stream_of O.Sink out.old out.new) (stream_of E.Sink err.old err.new) }
{
    let Ok(told) = reported(alloc, trials) else {
        return LIT.out_of_memory(err);
    };
    let Ok(text) = end_text(alloc, detail, count, trials, told.as_slice()) else {
        return LIT.out_of_memory(err);
    };
    match write_piece(text.as_slice(), out) {
        Ok(()) => status_of(told.as_slice()),
        Err(_) => LIT.cannot_write(err),
    }
}
