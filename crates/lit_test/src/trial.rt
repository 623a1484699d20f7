//! The trial of a test.
ghost use Rattle.std.specs.Prelude.{◌≡◌, ◌+◌, ◌*◌, ◌<◌, ◌≤◌, ◌^◌, ◌++◌, ◌∷◌, [], IfOk, false, length, true};
ghost use Rattle.tt_outside.specs.Faults.{Rose};
ghost use Rattle.tt_outside.specs.Gave.{SameGave};
ghost use Rattle.test_course.specs.Bytes.{kept_behind};
ghost use Rattle.test_course.specs.Entries.{AreGiven};
ghost use Rattle.test_course.specs.Played.{any_broken};
ghost use Rattle.lit_test.specs.Trial.{IsTrial, ending_of};

use crate::outcome::Ending;
use crate::running::run_begun;
use crate::text::Text;
use std::alloc::Global;
use test_course::kept_bytes;
use test_outcome::Outcome;
use tt_base::{Items, NoMemory};
use tt_outside::{Entry, Runner, Test};

/// A test, its requests with their replies, and how it ended.
#[derive(Drop, Debug)]
pub struct Trial {
    /// The number by which a hand begins it.
    pub number: u64,
    pub test: Test,
    pub entries: Items<Entry>,
    pub result: Outcome,
    /// The transcript.
    pub text: Text,
    ghost ended: { (ending_of test entries).outcome ≡ result },
    ghost told: { (ending_of test entries).text ≡ text },
    ghost light: { kept_behind 0 entries ≤ 3 * 2 ^ 23 },
}

impl Trial {
    ghost use Rattle.test_course.specs.Bytes.{kept_behind};

    /// How many bytes it keeps: those of its requests, one more for each, and those of the replies. At most 24 MiB.
    pub fn kept(&self) -> u64
        ensures exact { result ≡ kept_behind 0 self.now.entries }
        ensures light { result ≤ 3 * 2 ^ 23 }
    {
        kept_bytes(self.entries.as_slice())
    }
}

/// Runs a test by a hand, which begins its number once. It waits for programs. At want of memory the hand has begun the
/// test, and nothing is said of what it asked.
pub fn run_test<R: Runner>(
    alloc: Global,
    number: u64,
    test: &Test,
    hand: &mut R,
) -> Result<Trial, NoMemory>
    requires room { 0 < R.rooms hand.old }
    requires asked { R.asked hand.old < 2 ^ 63 }
    requires ready { R.ready hand.old }
    ensures trial { IfOk result (λ trial. IsTrial test.now trial.entries trial.result trial.text) }
    ensures same { IfOk result (λ trial. (trial.number ≡ number) × (trial.test ≡ test.now)) }
    ensures given { IfOk result (λ trial. AreGiven (R.gave hand.old) number [] trial.entries) }
    ensures few { IfOk result (λ trial. length trial.entries ≤ 2 ^ 24) }
    ensures asked { IfOk result (λ trial. R.asked hand.new ≡ R.asked hand.old + length trial.entries) }

    // A fault of the outside is told only where the hand's count rose, and else the count stays.
    ensures broken { IfOk result (λ trial. any_broken trial.entries ≡ true → Rose (R.faults hand.old) (R.faults hand.new)) }
    ensures calm { IfOk result (λ trial. any_broken trial.entries ≡ false → R.faults hand.new ≡ R.faults hand.old) }
    ensures later { R.faults hand.old ≤ R.faults hand.new }

    ensures begun { R.begun hand.new ≡ R.begun hand.old ++ number ∷ [] }
    ensures room { R.rooms hand.new + 1 ≡ R.rooms hand.old }
    ensures gave { SameGave (R.gave hand.new) (R.gave hand.old) }
    ensures ready { R.ready hand.new }
{
    hand.begin(number);
    let test = test.copy(alloc)?;
    let mut entries = Items::new(alloc);
    let ending = run_begun(alloc, &test, &mut entries, hand)?;
    let Ending { outcome, text } = ending;
    Ok(Trial {
        number,
        test,
        entries,
        result: outcome,
        text,
    })
}
