//! A test, with all that its run needs.
ghost use Rattle.std.specs.Prelude.{All, ◌<◌, length};

use crate::request::Pair;
use crate::shared::SharedItems;
use tt_base::Bytes;

/// A test of a suite, complete in itself. Paths are normal and begin with `/`. Its lists stand once for all tests that
/// share them.
#[derive(Drop, Debug)]
pub struct Test {
    /// The suite's name, ` :: `, and the path below the suite's root.
    pub name: Bytes,
    /// The test file.
    pub path: Bytes,
    /// The directory of the test file.
    pub source_dir: Bytes,
    /// The directory in which its commands run.
    pub work_dir: Bytes,
    /// The directory of its temporary files.
    pub temp_dir: Bytes,
    /// How the paths of its temporary files begin.
    pub temp: Bytes,
    pub features: SharedItems<Bytes>,
    /// The replacements of its suite, in order.
    pub substitutions: SharedItems<Pair>,
    /// The paths of programs by their names.
    pub tools: SharedItems<Pair>,
    /// What is added to the inherited environment.
    pub environment: SharedItems<Pair>,
    ghost named: { All (λ pair. 0 < length pair.name) substitutions },
}
