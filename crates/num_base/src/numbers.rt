//! Numbers under names.
ghost use Rattle.std.specs.Prelude.{◌≡◌, OnErr, OnOk};
ghost use Rattle.std.specs.FinMap as map;

use std::alloc::Global;
use std::collections::BTreeMap;
use std::marker::Model;
use tt_base::NoMemory;

/// A finite map from names to values.
#[derive(Drop, Debug)]
pub struct Numbers {
    alloc: Global,
    held: BTreeMap<Vec<u8>, i128>,
}

impl Model for Numbers {
    ghost use Rattle.std.specs.FinMap as map;
    ghost use Rattle.std.specs.Coded.{coded_list, coded_ℕ, coded_ℤ};
    ghost use Rattle.std.specs.Prelude.{ℤ};
    ghost use Rattle.num_base.specs.Names.{name_cmp, by_names};

    ghost Value = { map.FinMap name_cmp ℤ };

    ghost coded = { map.code (coded_list coded_ℕ) coded_ℤ };

    ghost view = { λ numbers. by_names numbers.held.entries };
}

impl Numbers {
    /// No names. It takes no memory.
    pub fn new(alloc: Global) -> Numbers
        ensures { result ≡ map.empty }
    {
        Numbers {
            alloc,
            held: BTreeMap::new(alloc),
        }
    }

    /// The value of a name. It takes no memory.
    pub fn get(&self, name: &[u8]) -> Option<i128>
        ensures { result ≡ map.get self.now name.now }
    {
        self.held.get(name).copied()
    }

    /// Sets the value of one name.
    pub fn put(&mut self, name: &[u8], value: i128) -> Result<(), NoMemory>
        ensures ok { OnOk result (self.new ≡ map.insert self.old name.now value) }
        ensures err { OnErr result (self.new ≡ self.old) }
    {
        let Ok(owned) = Vec::from_slice(self.alloc, name) else {
            return Err(NoMemory);
        };
        match self.held.insert(owned, value) {
            Ok(_) => Ok(()),
            Err(_) => Err(NoMemory),
        }
    }
}
