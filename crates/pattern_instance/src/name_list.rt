//! Names, each once.
ghost use Rattle.std.specs.Prelude.{◌≡◌, ◌∷◌, [], ℕ, List, OnOk};
ghost use Rattle.std.specs.FinMap.{empty};
ghost use Rattle.pattern_instance.specs.Missing.{each_once};
ghost use Rattle.pattern_instance.specs.Views.{ToldBy, still_told};

use crate::groups::Groups;
use std::alloc::Global;
use tt_base::{Bytes, Items, NoMemory};

/// Names, each once, in the order in which they were added first. They are told also as a set.
#[derive(Drop)]
pub struct NameList {
    told: Groups,
    names: Items<Bytes>,
}

impl NameList {
    /// No names. It takes no memory.
    pub fn new(alloc: Global) -> NameList
        ensures { (rest : List (List ℕ)) → still_told result rest ≡ each_once empty rest }
    {
        NameList {
            told: Groups::new(alloc),
            names: Items::new(alloc),
        }
    }

    /// Adds a name, unless it is among them.
    pub fn add(&mut self, alloc: Global, name: &[u8]) -> Result<(), NoMemory>
        ensures { OnOk result (ToldBy self.old self.new (λ rest. name.now ∷ rest)) }
    {
        if self.told.get(name).is_some() {
            return Ok(());
        }
        let owned = Bytes::from_slice(alloc, name)?;
        self.names.push(owned)?;
        self.told.put(name, 0)
    }

    /// The names.
    pub fn into_items(self) -> Items<Bytes>
        ensures { result ≡ still_told self [] }
    {
        self.names
    }
}
