//! What a report tells of.
ghost use Rattle.std.specs.Prelude.{◌≡◌, ◌++◌, OnOk};

use test_outcome::Outcome;
use tt_base::{Bytes, NoMemory};

/// A test that was run, as a report tells of it.
pub trait Reported {
    ghost use Rattle.lit_report.specs.Report.{TestReport};

    /// What is told of it.
    ghost told: { Self → TestReport };

    fn name(&self) -> &[u8]
        ensures { result.now ≡ (told self.now).name };

    fn outcome(&self) -> Outcome
        ensures { result ≡ (told self.now).result };

    /// Adds its transcript.
    fn add_text(&self, text: &mut Bytes) -> Result<(), NoMemory>
        ensures { OnOk result (text.new ≡ text.old ++ (told self.now).text) };
}
