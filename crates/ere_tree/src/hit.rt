//! What a search gives: the span of a match, and what its groups matched.
ghost use Rattle.std.specs.Prelude.{◌≡◌, ◌++◌, ◌∷◌, [], length, slice_get, OnOk, OnErr, Some};

use std::alloc::{AllocError, Global};
use std::marker::Model;

/// What a group matched: the bytes from `from` to before `to`.
#[derive(Clone, Copy, Debug, PartialEq, Eq)]
pub struct Cap {
    pub from: usize,
    pub to: usize,
}

/// What each group matched, group 1 first. A group that took no part has nothing.
#[derive(Drop, Debug)]
pub struct Caps {
    held: Vec<Option<Cap>>,
}

impl Model for Caps {
    ghost use Rattle.std.specs.Prelude.{List, Option};
    ghost use Rattle.ere_tree.specs.declared.hit.Cap.{Cap};

    ghost Value = { List (Option Cap) };

    ghost view = { λ caps. caps.held.items };
}

impl Caps {
    /// The captures of no group.
    pub fn new(alloc: Global) -> Caps
        ensures { result ≡ [] }
    {
        Caps {
            held: Vec::new(alloc),
        }
    }

    /// These captures. It takes no memory.
    pub fn from_vec(all: Vec<Option<Cap>>) -> Caps
        ensures { result ≡ all.items }
    {
        Caps { held: all }
    }

    /// The captures, group 1 first.
    pub fn as_slice(&self) -> &[Option<Cap>]
        ensures { result.now ≡ self.now }
    {
        self.held.as_slice()
    }

    /// The captures, given back without taking memory.
    pub fn into_vec(self) -> Vec<Option<Cap>>
        ensures { result.items ≡ self }
    {
        self.held
    }
}

/// A match: the bytes from `from` to before `to`, and what its groups matched.
#[derive(Drop, Debug)]
pub struct Hit {
    pub from: usize,
    pub to: usize,
    pub groups: Caps,
}
