//! Why a check file is refused.
use tt_base::{NoMemory, Place};

/// What is wrong with a line of a check file, in the order in which it is refused.
#[derive(Clone, Copy, Debug, PartialEq, Eq)]
pub enum LineFault {
    /// `CHECK-COUNT-0: a`, at the prefix: a COUNT asks for 1 to 100,000 matches.
    BadCount,
    /// `CHECK-NOT-NEXT: a`, at the prefix.
    NotCombination,
    /// `CHECK{FOO}: a`, at the prefix.
    BadModifier,
    /// `CHECK:` with nothing behind it, behind the colon.
    EmptyPattern,
    /// `CHECK-EMPTY: a`, at the body.
    NonEmptyForEmpty,
    /// `CHECK-NEXT: a` before any other directive, at the prefix.
    NoEarlierCheck,
}

/// What is wrong with a check file.
#[derive(Clone, Copy, Debug, PartialEq, Eq)]
pub enum CheckKind {
    Line(LineFault),
    /// No line holds a directive.
    NoChecks,
    /// No directive has the check prefix of this number, from 0.
    UnusedPrefix(usize),
}

/// What is wrong, and where.
#[derive(Clone, Copy, Debug, PartialEq, Eq)]
pub struct CheckFault {
    /// The offset in the canonical text; 0 where the whole file is meant.
    pub at: usize,
    /// The place of that offset.
    pub place: Place,
    pub kind: CheckKind,
}

/// Why no directives were read.
#[derive(Clone, Copy, Debug, PartialEq, Eq)]
pub enum CheckFail {
    Bad(CheckFault),
    NoMemory,
}

impl From<NoMemory> for CheckFail {
    ghost use Rattle.std.specs.Prelude.{◌≡◌};
    ghost use Rattle.check_lines.specs.declared.fault.CheckFail.TheVariants.{NoMemory};

    ghost from_gives = { λ _ fail. fail ≡ NoMemory };

    fn from(_: NoMemory) -> CheckFail {
        CheckFail::NoMemory
    }
}
