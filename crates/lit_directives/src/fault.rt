//! Why there is no script.
use tt_base::NoMemory;

/// How many RUN directives a script may have.
pub const MAX_RUNS: u32 = 1_000;

/// The greatest number that ALLOW_RETRIES may have.
pub const MAX_RETRIES: u32 = 100;

/// What is wrong with a script, with the number of the line, from 1. Of several the first line's counts; then Unfinished,
/// then NoRun.
#[derive(Clone, Copy, Debug, PartialEq, Eq)]
pub enum ScriptFault {
    /// An item of a list is no expression, as in `REQUIRES: a &&`.
    BadExpr(u32),
    /// The 1,001st `RUN:`.
    TooMany(u32),
    /// A line with a directive that isn't UTF-8.
    NotText(u32),
    /// No number from 0 to 100, as in `ALLOW_RETRIES: 101`.
    BadRetries(u32),
    /// A second `ALLOW_RETRIES:`.
    TwiceRetries(u32),
    /// The last part of a RUN line ends in `\`, as in `RUN: a \`.
    Unfinished(u32),
    /// No line has a `RUN:`.
    NoRun,
}

/// Why there is no script.
#[derive(Clone, Copy, Debug, PartialEq, Eq)]
pub enum ScriptFail {
    /// The file is no script, as one without a `RUN:`.
    Bad(ScriptFault),
    /// Memory ran out.
    NoMemory,
}

impl From<NoMemory> for ScriptFail {
    ghost use Rattle.std.specs.Prelude.{◌≡◌};
    ghost use Rattle.lit_directives.specs.declared.fault.ScriptFail.TheVariants.{NoMemory};

    ghost from_gives = { λ _ fail. fail ≡ NoMemory };

    fn from(_: NoMemory) -> ScriptFail {
        ScriptFail::NoMemory
    }
}
