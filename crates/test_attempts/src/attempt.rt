//! An attempt, asked request by request.
ghost use Rattle.std.specs.Prelude.{◌≡◌, ◌≢◌, ◌+◌, ◌≤◌, ◌^◌, [], IfOk, OnOk};
ghost use Rattle.tt_outside.specs.Gave.{last_of};
ghost use Rattle.test_course.specs.Played.{IsFull, Played};
ghost use Rattle.shell_play.specs.PlayOf.{course_of};
ghost use Rattle.test_attempts.specs.Ends.{Ends};
ghost use Rattle.test_attempts.specs.Hands.{Answered, StaysOn};

use shell_play::{Due, Play, PlayEnd};
use std::alloc::Global;
use test_course::{COUNTED, MAX_KEPT, own_bytes, reply_bytes};
use tt_base::{Items, NoMemory};
use tt_outside::{Entry, Runner};

/// Why nothing more is asked.
#[derive(Clone, Copy, Debug, PartialEq, Eq)]
pub enum AttemptStop {
    Ended(PlayEnd),
    /// What is due would pass the bytes that a test keeps.
    TooMuch,
}

/// What an attempt leaves: why nothing more is asked, and how many bytes are kept, counted up to
/// `COUNTED`.
#[derive(Clone, Copy, Debug, PartialEq, Eq)]
pub struct AttemptEnd {
    pub stop: AttemptStop,
    pub kept: u64,
}

/// Asks what is due of a play, and keeps each entry, until it is over or what is due has no room.
pub fn play_out<R: Runner>(
    alloc: Global,
    play: &mut Play,
    entries: &mut Items<Entry>,
    mut kept: u64,
    hand: &mut R,
) -> Result<AttemptEnd, NoMemory>
    requires begun { R.begun hand.old ≢ [] }
    requires ready { R.ready hand.old }
    requires kept { kept ≤ 2 ^ 25 }
    ensures played { IfOk result (λ left. Played (R.gave hand.old) (last_of 0 (R.begun hand.old)) entries.old entries.new
        kept (course_of play.old) left.kept (course_of play.new)) }
    ensures full { IfOk result (λ left. IsFull left.kept (course_of play.new)) }
    ensures ends { IfOk result (λ left. Ends (course_of play.new) left.stop) }
    ensures most { IfOk result (λ left. left.kept ≤ 2 ^ 25) }
    ensures answered { OnOk result (Answered R.Runner hand.old hand.new entries.old entries.new) }
    ensures stays { StaysOn R.Runner hand.old hand.new }
{
    let stop = loop {
        let request = match play.due(alloc)? {
            Due::Over(end) => break AttemptStop::Ended(end),
            Due::Ask(request) => request,
        };
        if kept + own_bytes(&request) > MAX_KEPT {
            break AttemptStop::TooMuch;
        }
        let reply = hand.ask(alloc, entries.as_slice(), &request)?;
        play.take(alloc, &reply)?;
        kept = (kept + own_bytes(&request) + reply_bytes(&reply)).min(COUNTED);
        entries.push(Entry { request, reply })?;
    };
    Ok(AttemptEnd { stop, kept })
}
