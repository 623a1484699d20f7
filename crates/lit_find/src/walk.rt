//! What a discovery has found so far.

use crate::discovery::Discovery;
use crate::pending::Pending;
use std::collections::BTreeSet;

/// The tests found, the paths of the directories that were walked through, how many items these had, and the
/// directories that are to be walked through.
#[derive(Drop, Debug)]
pub(crate) struct Walk {
    pub found: Discovery,
    pub walked: BTreeSet<Vec<u8>>,
    pub taken: usize,
    pub pending: Pending,
}
