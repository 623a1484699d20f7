//! Owned lists and bytes that many values hold together.
ghost use Rattle.std.specs.Prelude.{◌≡◌, ◌↔◌, [], IfOk, IsTrue, length};

use std::alloc::Global;
use std::marker::Model;
use std::sync::Arc;
use tt_base::{Bytes, Items, NoMemory};

/// A list of items, which stands once for all that share it.
#[derive(Drop, Debug)]
pub struct SharedItems<T> {
    held: Arc<Items<T>>,
}

impl<T> Model for SharedItems<T> {
    ghost use Rattle.std.specs.Prelude.{List};
    ghost use Rattle.std.specs.Arc.{arc_value};

    ghost Value = { List T };

    ghost view = { λ shared. arc_value shared.held };
}

impl<T> SharedItems<T> {
    /// The same list, for one more that holds it. It takes no room of its own.
    pub fn share(&self) -> Result<SharedItems<T>, NoMemory>
        ensures { IfOk result (λ shared. shared ≡ self.now) }
    {
        match Arc::try_clone(&self.held) {
            Ok(held) => Ok(SharedItems { held }),
            Err(_) => Err(NoMemory),
        }
    }

    /// The items, in order.
    pub fn as_slice(&self) -> &[T]
        ensures { result.now ≡ self.now }
    {
        self.held.as_slice()
    }

    /// How many items there are.
    pub fn len(&self) -> usize
        ensures { result ≡ length self.now }
    {
        self.held.len()
    }
}

impl<T: Drop> SharedItems<T> {
    /// A list, to be shared.
    pub fn new(alloc: Global, items: Items<T>) -> Result<SharedItems<T>, NoMemory>
        ensures { IfOk result (λ shared. shared ≡ items) }
    {
        match Arc::new(alloc, items) {
            Ok(held) => Ok(SharedItems { held }),
            Err(_) => Err(NoMemory),
        }
    }
}

/// Bytes, which stand once for all that share them. It takes no memory to hold none.
#[derive(Drop, Debug)]
pub struct SharedBytes {
    held: Option<Arc<Bytes>>,
}

impl Model for SharedBytes {
    ghost use Rattle.std.specs.Prelude.{List, ℕ, []};
    ghost use Rattle.std.specs.Arc.{arc_value};
    ghost use Rattle.std.specs.Option.{option_map_or};

    ghost Value = { List ℕ };

    ghost view = { λ shared. option_map_or arc_value shared.held [] };
}

impl SharedBytes {
    /// No bytes. It takes no memory.
    pub fn none() -> SharedBytes
        ensures { result ≡ [] }
    {
        SharedBytes { held: None }
    }

    /// Bytes, to be shared. They aren't copied.
    pub fn new(alloc: Global, bytes: Bytes) -> Result<SharedBytes, NoMemory>
        ensures { IfOk result (λ shared. shared ≡ bytes) }
    {
        if bytes.is_empty() {
            return Ok(SharedBytes::none());
        }
        match Arc::new(alloc, bytes) {
            Ok(held) => Ok(SharedBytes { held: Some(held) }),
            Err(_) => Err(NoMemory),
        }
    }

    /// A copy of a slice, to be shared.
    pub fn from_slice(alloc: Global, bytes: &[u8]) -> Result<SharedBytes, NoMemory>
        ensures { IfOk result (λ shared. shared ≡ bytes.now) }
    {
        SharedBytes::new(alloc, Bytes::from_slice(alloc, bytes)?)
    }

    /// The same bytes, for one more that holds them. It takes no room of its own.
    pub fn share(&self) -> Result<SharedBytes, NoMemory>
        ensures { IfOk result (λ shared. shared ≡ self.now) }
    {
        let Some(held) = &self.held else {
            return Ok(SharedBytes::none());
        };
        match Arc::try_clone(held) {
            Ok(held) => Ok(SharedBytes { held: Some(held) }),
            Err(_) => Err(NoMemory),
        }
    }

    /// The bytes for the one that holds them. They are copied only where others hold them too.
    pub fn into_bytes(self, alloc: Global) -> Result<Bytes, NoMemory>
        ensures { IfOk result (λ bytes. bytes ≡ self) }
    {
        let Some(held) = self.held else {
            return Ok(Bytes::new(alloc));
        };
        match Arc::try_unwrap(held) {
            Ok(bytes) => Ok(bytes),
            Err(held) => Bytes::from_slice(alloc, held.as_slice()),
        }
    }

    /// The bytes, in order.
    pub fn as_slice(&self) -> &[u8]
        ensures { result.now ≡ self.now }
    {
        match &self.held {
            Some(held) => held.as_slice(),
            None => b"",
        }
    }

    /// How many bytes there are.
    pub fn len(&self) -> usize
        ensures { result ≡ length self.now }
    {
        self.as_slice().len()
    }

    /// Whether there are none.
    pub fn is_empty(&self) -> bool
        ensures { IsTrue result ↔ (self.now ≡ []) }
    {
        match &self.held {
            Some(held) => held.is_empty(),
            None => true,
        }
    }
}
