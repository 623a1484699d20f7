//! Trials, as a report tells of them.
ghost use Rattle.std.specs.Prelude.{◌≡◌, IfOk, map};
ghost use Rattle.lit_pool.specs.Pool.{told_of};

use lit_report::Reported;
use lit_test::{Outcome, Trial};
use std::alloc::Global;
use tt_base::{Bytes, NoMemory};

/// A trial, as a report tells of it.
#[derive(Clone, Copy)]
pub struct ReportedTrial<'a> {
    pub trial: &'a Trial,
}

impl<'a> Reported for ReportedTrial<'a> {
    ghost told = { λ reported. told_of reported.trial.now };

    fn name(&self) -> &[u8] {
        self.trial.test.name.as_slice()
    }

    fn outcome(&self) -> Outcome {
        self.trial.result
    }

    fn add_text(&self, text: &mut Bytes) -> Result<(), NoMemory> {
        self.trial.text.add_to(text)
    }
}

/// Trials, as the end of a report tells of them.
pub fn reported<'a>(alloc: Global, trials: &'a [Trial]) -> Result<Vec<ReportedTrial<'a>>, NoMemory>
    ensures { IfOk result (λ all. map (λ one. told_of one.trial.now) all.items ≡ map told_of trials.now) }
{
    let Ok(mut all) = Vec::with_capacity(alloc, trials.len()) else {
        return Err(NoMemory);
    };
    for trial in trials {
        if all.push(ReportedTrial { trial }).is_err() {
            return Err(NoMemory);
        }
    }
    Ok(all)
}
