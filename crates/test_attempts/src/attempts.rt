//! A test's attempts, one after the other.
ghost use Rattle.std.specs.Prelude.{◌≡◌, ◌≢◌, ◌≤◌, ◌^◌, [], IfOk, OnOk, length};
ghost use Rattle.test_attempts.specs.Ends.{is_failed};
ghost use Rattle.test_attempts.specs.Finish.{FinishesBy};
ghost use Rattle.test_attempts.specs.Hands.{Answered, StaysOn};

use crate::attempt::{AttemptStop, play_out};
use mini_shell::Line;
use shell_play::{Play, PlayEnd};
use std::alloc::Global;
use tt_base::{Items, NoMemory};
use tt_outside::{Entry, Runner, Test};

/// What a test's attempts leave: how many began, the last of them, why nothing more is asked, and how many bytes are kept.
#[derive(Drop)]
pub struct Finished<'a> {
    pub attempts: u32,
    /// It is at its beginning where none began.
    pub last: Play<'a>,
    pub stop: AttemptStop,
    pub kept: u64,
}

fn is_failed(stop: &AttemptStop) -> bool
    ensures { result ≡ is_failed stop.now }
{
    matches!(stop, AttemptStop::Ended(PlayEnd::Failed { .. }))
}

/// Plays lines, and while they fail plays them again, so often at most.
pub fn run_attempts<'a, R: Runner>(
    alloc: Global,
    lines: &'a [Line],
    test: &'a Test,
    retries: u32,
    entries: &mut Items<Entry>,
    mut kept: u64,
    hand: &mut R,
) -> Result<Finished<'a>, NoMemory>
    requires bounds { (length lines.now ≤ 1000) × (retries ≤ 100) }
    requires begun { R.begun hand.old ≢ [] }
    requires ready { R.ready hand.old }
    requires kept { kept ≤ 2 ^ 25 }
    ensures finishes { IfOk result (FinishesBy R.Runner hand.old lines.now test.now retries entries.old entries.new kept) }
    ensures answered { OnOk result (Answered R.Runner hand.old hand.new entries.old entries.new) }
    ensures stays { StaysOn R.Runner hand.old hand.new }
{
    let mut attempts = 0;
    let mut last = Play::new(alloc, lines, test)?;
    let stop = loop {
        let before = entries.len();
        let mut play = Play::new(alloc, lines, test)?;
        let end = play_out(alloc, &mut play, entries, kept, hand)?;
        if entries.len() == before {
            break AttemptStop::TooMuch;
        }
        attempts += 1;
        last = play;
        kept = end.kept;
        if attempts > retries || !is_failed(&end.stop) {
            break end.stop;
        }
    };
    Ok(Finished {
        attempts,
        last,
        stop,
        kept,
    })
}
