//! Names with a number each, as the groups of texts.
ghost use Rattle.std.specs.Prelude.{◌≡◌, OnOk};
ghost use Rattle.std.specs.FinMap as map;

use std::alloc::Global;
use std::collections::BTreeMap;
use std::marker::Model;
use tt_base::NoMemory;

/// A finite map from names to numbers.
#[derive(Drop)]
pub(crate) struct Groups {
    alloc: Global,
    held: BTreeMap<Vec<u8>, u32>,
}

impl Model for Groups {
    ghost use Rattle.std.specs.FinMap as map;
    ghost use Rattle.std.specs.Coded.{coded_list, coded_ℕ};
    ghost use Rattle.std.specs.Prelude.{ℕ};
    ghost use Rattle.num_base.specs.Names.{name_cmp, by_names};

    ghost Value = { map.FinMap name_cmp ℕ };

    ghost coded = { map.code (coded_list coded_ℕ) coded_ℕ };

    ghost view = { λ groups. by_names groups.held.entries };
}

impl Groups {
    pub(crate) fn new(alloc: Global) -> Groups
        ensures { result ≡ map.empty }
    {
        Groups {
            alloc,
            held: BTreeMap::new(alloc),
        }
    }

    /// The number of a name.
    pub(crate) fn get(&self, name: &[u8]) -> Option<u32>
        ensures { result ≡ map.get self.now name.now }
    {
        self.held.get(name).copied()
    }

    /// Sets the number of a name.
    pub(crate) fn put(&mut self, name: &[u8], number: u32) -> Result<(), NoMemory>
        ensures { OnOk result (self.new ≡ map.insert self.old name.now number) }
    {
        let Ok(owned) = Vec::from_slice(self.alloc, name) else {
            return Err(NoMemory);
        };
        match self.held.insert(owned, number) {
            Ok(_) => Ok(()),
            Err(_) => Err(NoMemory),
        }
    }
}
