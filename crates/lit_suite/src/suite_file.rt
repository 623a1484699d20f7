//! What a suite file says, and why one is refused.
ghost use Rattle.std.specs.Prelude.{◌≡◌};

use tt_base::{Bytes, Items, NoMemory};
use tt_outside::{Pair, SharedItems};

/// What `lit.suite.toml` says of the tests below its directory. What each of them holds as it is said stands once.
#[derive(Drop, Debug)]
pub struct Suite {
    pub name: Bytes,
    /// How the names of test files end.
    pub suffixes: Items<Bytes>,
    /// The names of files and directories that are passed over.
    pub excludes: Items<Bytes>,
    pub features: SharedItems<Bytes>,
    /// Where the commands run, if not at the suite's root.
    pub exec_root: Option<Bytes>,
    pub substitutions: SharedItems<Pair>,
    pub tools: Items<Pair>,
    /// What is added to the inherited environment.
    pub environment: SharedItems<Pair>,
    pub parts: Items<Part>,
}

/// A directory below the suite's root, with features and substitutions of its own.
#[derive(Drop, Debug)]
pub struct Part {
    pub path: Bytes,
    pub features: Items<Bytes>,
    pub substitutions: Items<Pair>,
}

/// Why a suite file is refused. A key is named where it is at fault.
#[derive(Drop, Debug)]
pub enum SuiteFault {
    /// The file is no TOML, as `=` isn't.
    NotToml,
    /// A key that must be there isn't.
    MissingKey(Bytes),
    /// A version that isn't 1 or 2, as `3` and `1.0`.
    BadVersion,
    /// A key that isn't one of a suite, the least in byte order; `parts` is one from version 2 on.
    UnknownKey(Bytes),
    /// A value that the key can't have, as an empty list of suffixes.
    BadValue(Bytes),
}

/// Why a suite file isn't read.
#[derive(Drop, Debug)]
pub enum SuiteFail {
    Bad(SuiteFault),
    NoMemory,
}

impl From<NoMemory> for SuiteFail {
    ghost use Rattle.lit_suite.specs.declared.suite_file.SuiteFail.TheVariants.{NoMemory};

    ghost from_gives = { λ _ fail. fail ≡ NoMemory };

    fn from(_: NoMemory) -> SuiteFail {
        SuiteFail::NoMemory
    }
}
