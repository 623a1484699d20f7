//! What a run finds amiss in an input, as data. src/message.rt has what is told of it.
use crate::spot::Spot;
use check_group::FaultKind;
use tt_base::{Bytes, Items};

/// What is told of a place in the input.
#[derive(Clone, Copy, Debug, PartialEq, Eq)]
pub enum Remark {
    ScanningFrom,
    MatchWasHere,
    PreviousEnded,
    FoundHere,
}

/// A place in the input, and what is told of it.
#[derive(Drop, Debug)]
pub struct Note {
    pub remark: Remark,
    pub spot: Spot,
}

/// A directive that isn't met.
#[derive(Drop, Debug)]
pub struct Finding {
    /// Its prefix with its suffix.
    pub name: Bytes,
    pub fault: FaultKind,
    /// How many matches it asks for, where that is told.
    pub times: Option<u32>,
    /// Where its body stands.
    pub check: Spot,
    pub notes: Items<Note>,
}
