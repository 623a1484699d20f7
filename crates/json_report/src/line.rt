//! What a report tells of a test, and why one is refused.
ghost use Rattle.std.specs.Prelude.{◌≡◌};

use test_outcome::Outcome;
use tt_base::{Bytes, NoMemory};

/// A test as a report tells of it.
#[derive(Drop, Debug)]
pub struct Line {
    pub name: Bytes,
    /// The test file.
    pub path: Bytes,
    pub result: Outcome,
}

/// Why a report is refused: the first of these that holds.
#[derive(Clone, Copy, Debug, PartialEq, Eq)]
pub enum ReportFault {
    /// The bytes are no JSON, or nest too deep.
    NotJson,
    /// It is no object with just the keys `counts`, an object, `tests`, a list, and `version`, a whole number.
    BadShape,
    /// The version isn't 1.
    BadVersion,
    /// The first entry that isn't a test, from 0.
    BadTest(usize),
    /// The first entry whose path stands before it, from 0.
    TwicePath(usize),
    /// The counts aren't those of the tests.
    BadCounts,
}

/// Why a report isn't read.
#[derive(Clone, Copy, Debug, PartialEq, Eq)]
pub enum ReportFail {
    Bad(ReportFault),
    NoMemory,
}

impl From<NoMemory> for ReportFail {
    ghost use Rattle.json_report.specs.declared.line.ReportFail.TheVariants.{NoMemory};

    ghost from_gives = { λ _ fail. fail ≡ NoMemory };

    fn from(_: NoMemory) -> ReportFail {
        ReportFail::NoMemory
    }
}
