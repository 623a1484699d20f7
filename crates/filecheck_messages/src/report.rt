//! What a run tells that wasn't refused.
use crate::dumped::Dumped;
use crate::finding::Finding;
use make_checks::MadeFile;
use tt_base::Items;

/// What is told of checks and an input that were made.
#[derive(Clone, Copy, Debug, PartialEq, Eq)]
pub struct Made {
    pub checks: u64,
    /// How many bytes the input has.
    pub bytes: u64,
    pub faults: u64,
}

/// What a run tells that wasn't refused.
#[derive(Drop, Debug)]
pub enum Report {
    /// Each directive that isn't met, in order, and the annotated input where it is due.
    Found(Items<Finding>, Option<Dumped>),
    Made(Made),
    /// A check file that was made from the input.
    Checks(MadeFile),
}
