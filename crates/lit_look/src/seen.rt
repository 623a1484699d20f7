//! The directories that a discovery has looked at.
ghost use Rattle.std.specs.Prelude.{◌≡◌, ◌+◌, ◌<◌, ◌≤◌, ◌++◌, ◌∷◌, ◌↔◌, [], All, IfOk, IsTrue, MatchOption, OnErr, OnOk, Some, length, slice_get, true};
ghost use Rattle.std.specs.List.{list_all};
ghost use Rattle.lit_look.specs.Looks.{IsNumberOf};
ghost use Rattle.lit_look.specs.Seen.{Has, HasParts, HasRoot, count_items};
ghost use Rattle.tt_outside.specs.TreeMap.{is_part};

use crate::root::SharedRoot;
use lit_paths::text_of;
use std::alloc::Global;
use std::collections::BTreeMap;
use std::marker::Model;
use tt_base::{Bytes, Items, NoMemory};

/// How many items the directories list in all, at most.
pub const MAX_ITEMS: u64 = 1_000_000;

/// A directory that nothing refuses: how many items it lists, and the suite that it is the root of.
#[derive(Drop, Debug)]
pub struct Looked {
    pub dir: Items<Bytes>,
    pub count: usize,
    pub suite: Option<SharedRoot>,
}

/// The directories that were looked at, in their order.
#[derive(Drop, Debug)]
pub struct SeenFolders {
    held: Vec<Looked>,
    /// The number of each directory, under its path.
    numbers: BTreeMap<Vec<u8>, usize>,
    /// How many items were listed.
    items: u64,
}

impl Model for SeenFolders {
    ghost use Rattle.std.specs.Prelude.{List};
    ghost use Rattle.lit_look.specs.declared.seen.Looked.{Looked};
    ghost use Rattle.lit_look.specs.Index.{IsIndexed};

    ghost Value = { List Looked };

    ghost view = { λ seen. seen.held.items };

    ghost invariant = { λ seen. IsIndexed seen.held.items seen.numbers.entries seen.items };
}

impl SeenFolders {
    /// No directories. It takes no memory.
    pub fn new(alloc: Global) -> SeenFolders
        ensures { result ≡ [] }
    {
        SeenFolders {
            held: Vec::new(alloc),
            numbers: BTreeMap::new(alloc),
            items: 0,
        }
    }

    /// The directory of a number.
    pub fn at(&self, number: usize) -> &Looked
        requires { number < length self.now }
        ensures is { slice_get self.now number ≡ Some result.now }
        ensures root { HasRoot result.now }
        ensures within { count_items self.now ≤ 1000000 }
    {
        &self.held[number]
    }

    /// Whether so many further items are within the limit.
    pub(crate) fn has_room(&self, more: usize) -> bool
        ensures { IsTrue result ↔ (count_items self.now + more ≤ 1000000) }
    {
        more as u64 <= MAX_ITEMS - self.items
    }

    /// The number of a directory, if it was looked at.
    pub(crate) fn number_of(&self, alloc: Global, dir: &[Bytes]) -> Result<Option<usize>, NoMemory>
        requires { list_all is_part dir.now ≡ true }
        ensures { IfOk result (λ found. MatchOption found (¬ (Has self.now dir.now)) (IsNumberOf self.now dir.now)) }
    {
        let path = text_of(alloc, dir)?;
        Ok(self.numbers.get(path.as_slice()).copied())
    }

    /// Adds a directory, and gives its number.
    pub(crate) fn add(&mut self, alloc: Global, looked: Looked) -> Result<usize, NoMemory>
        requires parts { HasParts looked }
        requires root { HasRoot looked }
        requires new { ¬ (Has self.old looked.dir) }
        requires room { count_items self.old + looked.count ≤ 1000000 }
        ensures adds { OnOk result (self.new ≡ self.old ++ looked ∷ []) }
        ensures number { IfOk result (λ number. number ≡ length self.old) }
        ensures err { OnErr result (self.new ≡ self.old) }
    {
        let number = self.held.len();
        let more = looked.count as u64;
        let path = text_of(alloc, looked.dir.as_slice())?;
        if self.held.reserve(1).is_err() {
            return Err(NoMemory);
        }
        match self.numbers.insert(path.into_vec(), number) {
            Ok(_) => {
                self.held.push_reserved(looked);
                self.items += more;
                Ok(number)
            }
            Err(_) => Err(NoMemory),
        }
    }
}
