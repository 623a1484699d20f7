//! Ways of matching, as values.
ghost use Rattle.std.specs.Prelude.{◌≡◌, ℕ, IfOk, map};
ghost use Rattle.ere_tree.specs.Preference.{within, in_order};
ghost use Rattle.ere_slow.specs.WayView.{way_of, ways_of, row_of};

use std::alloc::{AllocError, Global};
use std::cmp::Ordering;

/// In what way an expression matched.
#[cycle(way)]
#[derive(Drop, Debug)]
pub enum OwnedWay {
    /// There was nothing to choose.
    Leaf,
    /// The ways of a concatenation's parts.
    Parts(OwnedWays),
    /// The ways of a repeat's members.
    Members(OwnedWays),
    /// Which alternative matched, from 0, and its way.
    Chosen { index: usize, way: Box<OwnedWay> },
    /// The way of what a group holds.
    Inside(Box<OwnedWay>),
}

/// Where one of a row ends, and its way.
#[cycle(way)]
#[derive(Drop, Debug)]
pub struct OwnedStep {
    pub(crate) to: usize,
    pub(crate) way: OwnedWay,
}

/// Ways one behind the other.
#[cycle(way)]
#[derive(Drop, Debug)]
pub struct OwnedWays {
    pub(crate) held: Vec<OwnedStep>,
}

impl OwnedWay {
    /// How many steps a copy takes.
    #[cycle(steps)]
    pub(crate) fn steps(&self) -> usize {
        match self {
            OwnedWay::Leaf => 0,
            OwnedWay::Parts(ways) | OwnedWay::Members(ways) => ways.steps(),
            OwnedWay::Chosen { way, .. } | OwnedWay::Inside(way) => way.steps().saturating_add(2),
        }
    }

    #[cycle(copy)]
    pub(crate) fn copy(&self, alloc: Global) -> Result<OwnedWay, AllocError>
        ensures { IfOk result (λ w. way_of w ≡ way_of self.now) }
    {
        match self {
            OwnedWay::Leaf => Ok(OwnedWay::Leaf),
            OwnedWay::Parts(ways) => Ok(OwnedWay::Parts(ways.copy(alloc)?)),
            OwnedWay::Members(ways) => Ok(OwnedWay::Members(ways.copy(alloc)?)),
            OwnedWay::Chosen { index, way } => {
                let copied = way.copy(alloc)?;
                Ok(OwnedWay::Chosen {
                    index: *index,
                    way: Box::new(alloc, copied)?,
                })
            }
            OwnedWay::Inside(way) => {
                let copied = way.copy(alloc)?;
                Ok(OwnedWay::Inside(Box::new(alloc, copied)?))
            }
        }
    }

    #[cycle(compare)]
    pub(crate) fn compare(&self, other: &OwnedWay) -> Ordering
        ensures { result ≡ within (way_of self.now) (way_of other.now) }
    {
        match self {
            OwnedWay::Leaf => Ordering::Equal,
            OwnedWay::Parts(ways) => match other {
                OwnedWay::Parts(others) => ways.compare(others),
                OwnedWay::Leaf => Ordering::Equal,
                OwnedWay::Members(_) => Ordering::Equal,
                OwnedWay::Chosen { .. } => Ordering::Equal,
                OwnedWay::Inside(_) => Ordering::Equal,
            },
            OwnedWay::Members(ways) => match other {
                OwnedWay::Members(others) => ways.compare(others),
                OwnedWay::Leaf => Ordering::Equal,
                OwnedWay::Parts(_) => Ordering::Equal,
                OwnedWay::Chosen { .. } => Ordering::Equal,
                OwnedWay::Inside(_) => Ordering::Equal,
            },
            OwnedWay::Chosen { index, way } => match other {
                OwnedWay::Chosen {
                    index: second,
                    way: other,
                } => index.cmp(second).then(way.compare(other)),
                OwnedWay::Leaf => Ordering::Equal,
                OwnedWay::Parts(_) => Ordering::Equal,
                OwnedWay::Members(_) => Ordering::Equal,
                OwnedWay::Inside(_) => Ordering::Equal,
            },
            OwnedWay::Inside(way) => match other {
                OwnedWay::Inside(other) => way.compare(other),
                OwnedWay::Leaf => Ordering::Equal,
                OwnedWay::Parts(_) => Ordering::Equal,
                OwnedWay::Members(_) => Ordering::Equal,
                OwnedWay::Chosen { .. } => Ordering::Equal,
            },
        }
    }
}

impl OwnedWays {
    /// How many steps a copy takes.
    #[cycle(steps)]
    pub(crate) fn steps(&self) -> usize {
        let mut steps: usize = 4;
        for step in self.held.as_slice() {
            steps = steps.saturating_add(step.way.steps()).saturating_add(1);
        }
        steps
    }

    #[cycle(copy)]
    pub(crate) fn copy(&self, alloc: Global) -> Result<OwnedWays, AllocError>
        ensures { IfOk result (λ w. row_of w ≡ row_of self.now) }
    {
        let mut held = Vec::new(alloc);
        for step in self.held.as_slice() {
            let way = step.way.copy(alloc)?;
            held.push(OwnedStep { to: step.to, way })?;
        }
        Ok(OwnedWays { held })
    }

    #[cycle(compare)]
    pub(crate) fn compare(&self, others: &OwnedWays) -> Ordering
        ensures { result ≡ in_order (ways_of (row_of self.now)) (ways_of (row_of others.now)) }
    {
        for k in 0..self.held.len().min(others.held.len()) {
            let step = &self.held[k];
            let other = &others.held[k];
            let first = other.to.cmp(&step.to).then(step.way.compare(&other.way));
            if first != Ordering::Equal {
                return first;
            }
        }
        Ordering::Equal
    }
}
