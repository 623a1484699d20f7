//! Why a check file isn't made.
use tt_base::NoMemory;

/// The greatest length of a check file that is made, in bytes: that of one that is read.
pub const MAX_FILE: usize = 16_777_216;

/// What stands in the way of a check file, in the order in which it is told.
#[derive(Clone, Copy, Debug, PartialEq, Eq)]
pub enum MakeFault {
    /// `a `: a lead with a letter, a digit, `-`, `_` or an end of a line, which a directive could begin in.
    BadLead,
    /// The body of the line with that number, from 1, would be too long for a directive.
    LineTooLong(u32),
    /// The check file would be too large to be read.
    TooLarge,
}

/// Why no check file was made.
#[derive(Clone, Copy, Debug, PartialEq, Eq)]
pub enum MakeFail {
    Bad(MakeFault),
    NoMemory,
}

impl From<NoMemory> for MakeFail {
    ghost use Rattle.std.specs.Prelude.{◌≡◌};
    ghost use Rattle.make_checks.specs.declared.fault.MakeFail.TheVariants.{NoMemory};

    ghost from_gives = { λ _ fail. fail ≡ NoMemory };

    fn from(_: NoMemory) -> MakeFail {
        MakeFail::NoMemory
    }
}
