//! How a test ended.
ghost use Rattle.std.specs.Prelude.{◌≡◌, IfOk};
ghost use Rattle.lit_test.specs.Run.{ending_left, shown_by};
ghost use Rattle.lit_test.specs.Trial.{cause_of, failed, last_cause, not_supported, passed, resolved, shown_text, unresolved_by};

use crate::outcome::Ending;
use crate::text::Text;
use crate::transcript::{add_seen, add_unresolved};
use shell_play::PlayEnd;
use std::alloc::Global;
use test_attempts::{AttemptStop, Finished};
use test_course::MAX_KEPT;
use test_outcome::Outcome;
use test_plan::{Cause, Runs};
use tt_base::NoMemory;
use tt_outside::{Entry, Reply};

/// An unresolved test, behind what is shown of it.
pub(crate) fn unresolved_by(text: Text, cause: Cause) -> Result<Ending, NoMemory>
    ensures { IfOk result (λ ending. ending ≡ unresolved_by text cause) }
{
    let mut text = text;
    add_unresolved(&mut text, cause)?;
    Ok(Ending {
        outcome: Outcome::Unresolved,
        text,
    })
}

/// A test that its features keep from running.
pub(crate) fn not_supported(alloc: Global) -> Result<Ending, NoMemory>
    ensures { IfOk result (λ ending. ending ≡ not_supported) }
{
    let mut text = Text::new(alloc);
    text.append(b"# not supported\n")?;
    Ok(Ending {
        outcome: Outcome::Unsupported,
        text,
    })
}

/// Why a reply ends a play.
fn cause_of(reply: &Reply) -> Cause
    ensures { result ≡ cause_of reply.now }
{
    match reply {
        Reply::TooLarge(_) => Cause::TooLarge,
        Reply::Bytes(_) | Reply::Written | Reply::Missing | Reply::Status { .. } | Reply::Broken =>
            Cause::Broken,
    }
}

/// Why the last reply does.
pub(crate) fn last_cause(entries: &[Entry]) -> Cause
    ensures { result ≡ last_cause Cause.Broken entries.now }
{
    let mut cause = Cause::Broken;
    for entry in entries {
        cause = cause_of(&entry.reply);
    }
    cause
}

fn passed(may_fail: bool, attempts: u32) -> Outcome
    ensures { result ≡ passed may_fail attempts }
{
    if attempts > 1 {
        Outcome::Flakypass
    } else if may_fail {
        Outcome::Xpass
    } else {
        Outcome::Pass
    }
}

fn failed(may_fail: bool) -> Outcome
    ensures { result ≡ failed may_fail }
{
    if may_fail {
        Outcome::Xfail
    } else {
        Outcome::Fail
    }
}

/// A test that was run to its end, unless too many bytes are kept.
fn resolved(kept: u64, text: Text, outcome: Outcome) -> Result<Ending, NoMemory>
    ensures { IfOk result (λ ending. ending ≡ resolved kept text outcome) }
{
    if kept > MAX_KEPT {
        return unresolved_by(text, Cause::TooMuch);
    }
    Ok(Ending { outcome, text })
}

/// What is shown of a test's attempts.
fn shown_text(alloc: Global, runs: &Runs, done: &Finished) -> Result<Text, NoMemory>
    ensures { IfOk result (λ text. text ≡ shown_text (shown_by runs.now done.now)) }
{
    let mut text = Text::new(alloc);
    add_seen(
        alloc,
        &mut text,
        runs.runs.as_slice(),
        done.attempts,
        done.last.began(),
        done.last.told(),
    )?;
    Ok(text)
}

/// How a test ended whose attempts left this.
pub(crate) fn ending_stopped(
    alloc: Global,
    runs: &Runs,
    done: &Finished,
    last: Cause,
) -> Result<Ending, NoMemory>
    ensures { IfOk result (λ ending. ending ≡ ending_left runs.now done.now last) }
{
    let text = shown_text(alloc, runs, done)?;
    match done.stop {
        AttemptStop::TooMuch => unresolved_by(text, Cause::TooMuch),
        AttemptStop::Ended(PlayEnd::Unresolved) => unresolved_by(text, last),
        AttemptStop::Ended(PlayEnd::Passed) => {
            resolved(done.kept, text, passed(runs.may_fail, done.attempts))
        }
        AttemptStop::Ended(PlayEnd::Failed { .. }) => resolved(
            done.kept,
            text,
            failed(runs.may_fail),
        ),
    }
}
