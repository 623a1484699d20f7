//! A tree of directories.
ghost use Rattle.std.specs.Prelude.{◌≡◌, ◌≢◌, ◌≤◌, Err, IfOk, IfSome, length, map, true};
ghost use Rattle.tt_outside.specs.Faults.{Lasts, Rose};
ghost use Rattle.tt_outside.specs.TreeMap.{GivesCount, GivesItems, GivesText, are_nested};

use std::alloc::Global;
use thiserror::Error;
use tt_base::{Bytes, Items};

/// What stands at a path.
#[derive(Clone, Copy, Debug, PartialEq, Eq)]
pub enum ItemKind {
    File,
    Dir,
    /// Neither, as a link to a directory.
    Other,
}

/// What stands in a directory.
#[derive(Drop, Debug)]
pub struct Item {
    pub name: Bytes,
    pub kind: ItemKind,
}

/// How many items stand in a directory, and those of some names.
#[derive(Drop, Debug)]
pub struct Counted {
    pub count: usize,
    pub named: Items<Item>,
}

/// What a tree is made of: a path, what stands there, and a file's bytes.
#[derive(Drop, Debug)]
pub struct Node {
    pub path: Bytes,
    pub kind: ItemKind,
    pub bytes: Bytes,
}

/// Why a tree gave no answer.
#[derive(Clone, Copy, Debug, PartialEq, Eq, Error)]
pub enum TreeFault {
    /// Neither a file nor a directory has the path; of a file that is to be read, no file has it.
    #[error("nothing has the path")]
    Missing,
    /// A file has the path that is to be listed.
    #[error("a file has the path")]
    NotDirectory,
    /// The file is longer than the limit of the call.
    #[error("there are too many bytes")]
    TooLarge,
    /// The object failed, and counted it.
    #[error("the tree could not be read")]
    Failed,
    #[error("out of memory")]
    NoMemory,
}

/// A tree of directories. Its paths are normal: they begin with `/`, and have no empty part, no `.` and no `..`.
pub trait Tree {
    ghost use Rattle.std.specs.Prelude.{ℕ, List, Option};
    ghost use Rattle.tt_outside.specs.declared.tree.Node.{Node};

    /// What stands in the tree, where it tells.
    ghost nodes: { Self → Option (List Node) };

    /// The path that words are joined to.
    ghost root: { Self → List ℕ };

    /// How often a call has failed. It never falls.
    ghost faults: { Self → ℕ };

    /// No later call fails, for certain.
    ghost steady: { Self → Type 0 } = { λ _. ⊥ };

    /// The path that words are joined to.
    fn base(&self) -> &[u8]
        ensures root { result.now ≡ root self.now }
        ensures nested { IfSome (nodes self.now) (λ nodes. are_nested nodes ≡ true) };

    /// What stands in a directory, in no order. A link to a file is a file, and another link is neither.
    fn list(&mut self, alloc: Global, dir: &[u8]) -> Result<Items<Item>, TreeFault>
        ensures gives { GivesItems (nodes self.old) dir.now result }
        ensures small { result ≢ Err TreeFault.TooLarge }
        ensures nodes { nodes self.new ≡ nodes self.old }
        ensures root { root self.new ≡ root self.old }
        ensures later { faults self.old ≤ faults self.new }
        ensures cause { result ≡ Err TreeFault.Failed → Rose (faults self.old) (faults self.new) }
        ensures calm { result ≢ Err TreeFault.Failed → faults self.new ≡ faults self.old }
        ensures steady { Lasts steady faults self.old self.new (result ≢ Err TreeFault.Failed) };

    /// How many items `list` would give, and those of some names, in no order. Of no other is the kind asked for, so an
    /// item that vanishes meanwhile may still count.
    fn count(&mut self, alloc: Global, dir: &[u8], names: &[&str]) -> Result<Counted, TreeFault>
        ensures gives { GivesCount (nodes self.old) dir.now (map (λ name. name.now) names.now) result }
        ensures small { result ≢ Err TreeFault.TooLarge }
        ensures nodes { nodes self.new ≡ nodes self.old }
        ensures root { root self.new ≡ root self.old }
        ensures later { faults self.old ≤ faults self.new }
        ensures cause { result ≡ Err TreeFault.Failed → Rose (faults self.old) (faults self.new) }
        ensures calm { result ≢ Err TreeFault.Failed → faults self.new ≡ faults self.old }
        ensures steady { Lasts steady faults self.old self.new (result ≢ Err TreeFault.Failed) };

    /// Reads a file from its beginning to its end, if it has at most `limit` bytes.
    fn read_all(&mut self, alloc: Global, name: &[u8], limit: u64) -> Result<Bytes, TreeFault>
        ensures gives { GivesText (nodes self.old) name.now limit result }
        ensures within { IfOk result (λ bytes. length bytes ≤ limit) }
        ensures file { result ≢ Err TreeFault.NotDirectory }
        ensures nodes { nodes self.new ≡ nodes self.old }
        ensures root { root self.new ≡ root self.old }
        ensures later { faults self.old ≤ faults self.new }
        ensures cause { result ≡ Err TreeFault.Failed → Rose (faults self.old) (faults self.new) }
        ensures calm { result ≢ Err TreeFault.Failed → faults self.new ≡ faults self.old }
        ensures steady { Lasts steady faults self.old self.new (result ≢ Err TreeFault.Failed) };
}
