//! The directories that a walk has before it.
ghost use Rattle.std.specs.Prelude.{◌≡◌, ◌∷◌, ◌++◌, IfOk, MatchOption, OnOk, []};
ghost use Rattle.lit_find.specs.Places.{IsFirst, IsInside, parts_of, path_order, put};

use crate::place::Place;
use lit_look::SharedRoot;
use std::alloc::Global;
use std::collections::BTreeMap;
use std::marker::Model;
use tt_base::{Bytes, Items, NoMemory};

/// Directories, each once. One stands before those below it, and siblings stand in byte order of their names.
#[derive(Drop, Debug)]
pub(crate) struct Pending {
    held: BTreeMap<Vec<Vec<u8>>, SharedRoot>,
}

impl Model for Pending {
    ghost use Rattle.std.specs.Prelude.{All, List, map};
    ghost use Rattle.lit_find.specs.Places.{IsInside, place_of_entry};
    ghost use Rattle.lit_find.specs.declared.place.Place.{Place};

    ghost Value = { List Place };

    ghost view = { λ pending. map place_of_entry pending.held.entries };

    ghost invariant = { λ pending. All IsInside (map place_of_entry pending.held.entries) };
}

/// The parts of a path, as a key.
pub(crate) fn key_of(alloc: Global, path: &[Bytes]) -> Result<Vec<Vec<u8>>, NoMemory>
    ensures { IfOk result (λ key. parts_of key ≡ path.now) }
{
    let mut key = Vec::new(alloc);
    for part in path {
        let Ok(copy) = Vec::from_slice(alloc, part.as_slice()) else {
            return Err(NoMemory);
        };
        if key.push(copy).is_err() {
            return Err(NoMemory);
        }
    }
    Ok(key)
}

/// The key of a name in a directory.
pub(crate) fn key_in(alloc: Global, dir: &[Bytes], name: &[u8]) -> Result<Vec<Vec<u8>>, NoMemory>
    ensures { IfOk result (λ key. parts_of key ≡ dir.now ++ name.now ∷ []) }
{
    let mut key = key_of(alloc, dir)?;
    let Ok(copy) = Vec::from_slice(alloc, name) else {
        return Err(NoMemory);
    };
    match key.push(copy) {
        Ok(_) => Ok(key),
        Err(_) => Err(NoMemory),
    }
}

/// The path of a key.
fn path_of(alloc: Global, key: Vec<Vec<u8>>) -> Result<Items<Bytes>, NoMemory>
    ensures { IfOk result (λ path. path ≡ parts_of key) }
{
    let mut path = Items::new(alloc);
    for part in key {
        path.push(Bytes::from_vec(part))?;
    }
    Ok(path)
}

impl Pending {
    /// No directories. It takes no memory.
    pub(crate) fn new(alloc: Global) -> Pending
        ensures { result ≡ [] }
    {
        Pending {
            held: BTreeMap::new(alloc),
        }
    }

    /// Adds a directory.
    pub(crate) fn put(&mut self, key: Vec<Vec<u8>>, suite: SharedRoot) -> Result<(), NoMemory>
        requires { IsInside (record { path = parts_of key; suite = suite }) }
        ensures { OnOk result (self.new ≡ put path_order (record { path = parts_of key; suite = suite }) self.old) }
    {
        match self.held.insert(key, suite) {
            Ok(_) => Ok(()),
            Err(_) => Err(NoMemory),
        }
    }

    /// Takes the first directory.
    pub(crate) fn pop(&mut self, alloc: Global) -> Result<Option<Place>, NoMemory>
        ensures { IfOk result (λ found. MatchOption found ((self.old ≡ []) × (self.new ≡ [])) (IsFirst self.old self.new)) }
    {
        let Some((key, suite)) = self.held.pop_first() else {
            return Ok(None);
        };
        let path = path_of(alloc, key)?;
        Ok(Some(Place { path, suite }))
    }
}
