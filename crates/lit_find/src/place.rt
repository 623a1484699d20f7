//! Paths with their suites.

use lit_look::SharedRoot;
use tt_base::{Bytes, Items};

/// A directory that is to be walked through, and the suite of the directory that it stands in.
#[derive(Drop, Debug)]
pub(crate) struct Place {
    pub path: Items<Bytes>,
    pub suite: SharedRoot,
}

/// A file that is a test, and its suite.
#[derive(Drop, Debug)]
pub(crate) struct TestFile {
    pub path: Bytes,
    pub suite: SharedRoot,
}
