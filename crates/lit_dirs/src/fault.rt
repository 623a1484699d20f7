//! Why a discovery is refused.
ghost use Rattle.std.specs.Prelude.{◌≡◌};

use lit_suite::SuiteFault;
use tt_base::{Bytes, NoMemory};

/// Why a discovery is refused. Each path is whole and normal.
#[derive(Drop, Debug)]
pub enum DiscoverFault {
    /// Neither a file nor a directory has the path of a word; or a directory or file vanished between two calls.
    Missing(Bytes),
    /// A Python configuration, as `lit.cfg`, the least of its directory in byte order.
    PythonConfig(Bytes),
    /// No suite is at the directory of this word, or above it.
    NoSuite(Bytes),
    /// A suite file that says what it can't.
    BadSuite { path: Bytes, fault: SuiteFault },
    /// A suite file past 64 KiB.
    SuiteTooLarge(Bytes),
    /// More than 100,000 tests.
    TooMany,
    /// More than 1,000,000 items in the directories that were looked at.
    TooManyItems,
    NoTests,
    /// The tree failed, and counted it.
    TreeFault,
    NoMemory,
}

impl From<NoMemory> for DiscoverFault {
    ghost use Rattle.lit_dirs.specs.declared.fault.DiscoverFault.TheVariants.{NoMemory};

    ghost from_gives = { λ _ fault. fault ≡ NoMemory };

    fn from(_: NoMemory) -> DiscoverFault {
        DiscoverFault::NoMemory
    }
}
