//! What is still to be matched.
ghost use Rattle.std.specs.Prelude.{◌≡◌, [], true, IfOk, IfSome, OnOk};
ghost use Rattle.std.specs.List.{Contains};
ghost use Rattle.ere_dive.specs.Dive.{IsCopy, IsPushed};

use crate::sums::mixed;
use ere_tree::{Cap, Ere};
use std::alloc::{AllocError, Global};

/// A step that is still to be done.
#[derive(Clone, Copy)]
pub(crate) enum What<'e> {
    /// An expression is matched.
    Match(&'e Ere),
    /// Parts are, one behind the other.
    Parts(&'e [Ere]),
    /// One of the alternatives is.
    Choices(&'e [Ere]),
    /// As many members of a repeat are.
    Members {
        inner: &'e Ere,
        least: u32,
        most: Option<u32>,
    },
    /// The place lies beyond this one.
    Beyond(usize),
    /// The group of this number ends, which began here.
    Close {
        number: u32,
        from: usize,
    },
}

impl<'e> What<'e> {
    /// What tells it from others of the same place in the expression.
    fn sum(self) -> u64 {
        match self {
            What::Match(_) => 1,
            What::Parts(_) => 2,
            What::Choices(_) => 3,
            What::Members { least, most, .. } => {
                mixed(4 + least as u64, most.unwrap_or(u32::MAX) as u64)
            }
            What::Beyond(from) => mixed(5, from as u64),
            What::Close { from, .. } => mixed(6, from as u64),
        }
    }

    /// Whether there may be two ways to do it.
    fn branches(self) -> bool {
        match self {
            What::Match(Ere::Alt(_)) | What::Match(Ere::Repeat { .. }) => true,
            What::Choices(_) | What::Members { .. } => true,
            _ => false,
        }
    }
}

/// A step, with a number for the place in the expression.
#[derive(Clone, Copy)]
pub(crate) struct Task<'e> {
    pub(crate) id: u64,
    pub(crate) what: What<'e>,
}

/// A group, the part of the text that it holds, and the sum of that text.
#[derive(Clone, Copy)]
pub(crate) struct Held {
    pub(crate) number: u32,
    pub(crate) part: Cap,
    pub(crate) sum: u64,
}

/// The part that a group holds.
pub(crate) fn part_of(held: &[Held], number: u32) -> Option<Held>
    ensures there { IfSome result (Contains held.now) }
    ensures own { IfSome result (λ found. found.number ≡ number) }
{
    for one in held {
        if one.number == number {
            return Some(*one);
        }
    }
    None
}

/// What is still to be done from a place on, the last task first, with what groups hold.
#[derive(Drop)]
pub(crate) struct State<'e> {
    pub(crate) tasks: Vec<Task<'e>>,
    pub(crate) place: usize,
    pub(crate) held: Vec<Held>,
}

impl<'e> State<'e> {
    pub(crate) fn copy(&self, alloc: Global) -> Result<State<'e>, AllocError>
        ensures { IfOk result (IsCopy self.now) }
    {
        Ok(State {
            tasks: Vec::from_slice(alloc, self.tasks.as_slice())?,
            place: self.place,
            held: Vec::from_slice(alloc, self.held.as_slice())?,
        })
    }

    /// Adds a task that is done before the others.
    pub(crate) fn push(&mut self, id: u64, what: What<'e>) -> Result<(), AllocError>
        ensures { OnOk result (IsPushed what.entry self.old self.new) }
    {
        self.tasks.push(Task { id, what })?;
        Ok(())
    }

    /// Whether nothing is left to be done, and this is the place.
    pub(crate) fn is_done(&self, place: usize) -> bool
        ensures tasks { result ≡ true → self.now.tasks.items ≡ [] }
        ensures place { result ≡ true → self.now.place ≡ place }
    {
        self.tasks.is_empty() && self.place == place
    }

    /// Whether there may be two ways to go on.
    pub(crate) fn branches(&self) -> bool {
        match self.tasks.last() {
            Some(task) => task.what.branches(),
            None => false,
        }
    }

    /// A number that is the same for states from which the same follows, and mostly for no others.
    pub(crate) fn sum(&self) -> u64 {
        let mut sum = mixed(0, self.place as u64);
        for task in &self.tasks {
            sum = mixed(mixed(sum, task.id), task.what.sum());
        }
        let mut groups = 0;
        for one in &self.held {
            groups ^= mixed(one.sum, one.number as u64);
        }
        mixed(sum, groups)
    }
}
