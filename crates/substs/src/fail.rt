//! Why a line isn't expanded.
ghost use Rattle.std.specs.Prelude.{◌≡◌, ◌+◌, ◌<◌, ◌≤◌, ◌^◌, ◌++◌, OnOk, length};
ghost use Rattle.substs.specs.Expansion.{Adds};

use tt_base::{Bytes, NoMemory};

/// How long a line may be, and each stage of one.
pub(crate) const MAX_LINE: usize = 1 << 20;

/// Why a line isn't expanded.
#[derive(Clone, Copy, Debug, PartialEq, Eq)]
pub enum ExpandFail {
    /// The line, or a stage of it, has more than 1 MiB.
    TooLong,
    NoMemory,
}

impl From<NoMemory> for ExpandFail {
    ghost use Rattle.std.specs.Prelude.{◌≡◌};
    ghost use Rattle.substs.specs.declared.fail.ExpandFail.TheVariants.{NoMemory};

    ghost from_gives = { λ _ fail. fail ≡ NoMemory };

    fn from(_: NoMemory) -> ExpandFail {
        ExpandFail::NoMemory
    }
}

/// Adds bytes at the end of a line.
pub(crate) fn add(line: &mut Bytes, bytes: &[u8]) -> Result<(), ExpandFail>
    requires { length line.old ≤ 2 ^ 20 }
    ensures { Adds line.old bytes.now line.new result }
{
    if bytes.len() > MAX_LINE - line.len() {
        return Err(ExpandFail::TooLong);
    }
    match line.append(bytes) {
        Ok(()) => Ok(()),
        Err(NoMemory) => Err(ExpandFail::NoMemory),
    }
}

/// Adds two pieces at the end of a line.
pub(crate) fn add_both(line: &mut Bytes, first: &[u8], second: &[u8]) -> Result<(), ExpandFail>
    requires { length line.old ≤ 2 ^ 20 }
    ensures { Adds line.old (first.now ++ second.now) line.new result }
{
    add(line, first)?;
    add(line, second)
}
