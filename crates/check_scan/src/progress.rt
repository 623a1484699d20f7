//! How far a scan has come.
use check_group::Fault;
use pattern_vars::Vars;
use tt_base::Items;

/// How far a scan has come: from where it goes on, with what variables, and what was found amiss up to there.
#[derive(Drop)]
pub(crate) struct Progress {
    pub place: usize,
    pub vars: Vars,
    pub faults: Items<Fault>,
}

/// What a step comes to, whatever it found.
#[derive(Clone, Copy, Debug, PartialEq, Eq)]
pub(crate) enum Going {
    /// The scan goes on from its place.
    On,
    /// The block, or with a label that isn't found the whole scan, is over.
    Over,
}
