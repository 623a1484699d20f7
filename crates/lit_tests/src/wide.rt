//! A tree with one directory of very many files, which tells nothing of what it holds.
use lit_dirs::DiscoverFault;
use lit_find::{Discovery, discover};
use std::alloc::Global;
use tt_base::{Bytes, Items, NoMemory};
use tt_outside::{Counted, Item, ItemKind, Tree, TreeFault};

/// `/w` has a suite file and so many tests. It had other ones when it was counted.
#[derive(Drop)]
struct WideTree {
    counted: usize,
    tests: usize,
}

/// A file of this name.
fn file(alloc: Global, name: &[u8]) -> Result<Item, NoMemory> {
    Ok(Item {
        name: Bytes::from_slice(alloc, name)?,
        kind: ItemKind::File,
    })
}

/// The name of a test: its number and `.txt`.
fn name_of(alloc: Global, number: usize) -> Result<Bytes, NoMemory> {
    let mut digits = [b'0'; 7];
    let mut rest = number;
    for at in 0..7 {
        digits[6 - at] = b'0' + (rest % 10) as u8;
        rest /= 10;
    }
    let mut name = Bytes::from_slice(alloc, digits.as_slice())?;
    name.append(b".txt".as_slice())?;
    Ok(name)
}

/// A test of a number.
fn test(alloc: Global, number: usize) -> Result<Item, NoMemory> {
    Ok(Item {
        name: name_of(alloc, number)?,
        kind: ItemKind::File,
    })
}

fn items_of(alloc: Global, tests: usize) -> Result<Items<Item>, NoMemory> {
    let mut items = Items::new(alloc);
    items.push(file(alloc, b"lit.suite.toml".as_slice())?)?;
    for number in 0..tests {
        items.push(test(alloc, number)?)?;
    }
    Ok(items)
}

impl Tree for WideTree {
    ghost use Rattle.std.specs.Prelude.{None, codes};

    ghost nodes = { λ _. None };

    ghost root = { λ _. codes "/" };

    ghost faults = { λ _. 0 };

    fn base(&self) -> &[u8] {
        b"/".as_slice()
    }

    fn list(&mut self, alloc: Global, _dir: &[u8]) -> Result<Items<Item>, TreeFault> {
        match items_of(alloc, self.tests) {
            Ok(items) => Ok(items),
            Err(NoMemory) => Err(TreeFault::NoMemory),
        }
    }

    fn count(&mut self, alloc: Global, _dir: &[u8], _names: &[&str]) -> Result<Counted, TreeFault> {
        match items_of(alloc, 0) {
            Ok(named) => Ok(Counted {
                count: self.counted.saturating_add(1),
                named,
            }),
            Err(NoMemory) => Err(TreeFault::NoMemory),
        }
    }

    fn read_all(&mut self, alloc: Global, _name: &[u8], limit: u64) -> Result<Bytes, TreeFault> {
        let text = b"version = 1\nname = \"w\"\nsuffixes = [\".txt\"]\n".as_slice();
        if text.len() as u64 > limit {
            return Err(TreeFault::TooLarge);
        }
        match Bytes::from_slice(alloc, text) {
            Ok(bytes) => Ok(bytes),
            Err(NoMemory) => Err(TreeFault::NoMemory),
        }
    }
}

/// How a discovery ended that has so many tests due.
fn end_of(found: &Result<Discovery, DiscoverFault>, tests: usize) -> &'static str {
    match found {
        Ok(found) => { if found.len() == tests { "all" } else { "some" } }
        Err(DiscoverFault::TooMany) => "too many tests",
        Err(DiscoverFault::TooManyItems) => "too many files",
        Err(_) => "another refusal",
    }
}

/// The one word `/w`.
fn words(alloc: Global) -> Result<Items<Bytes>, NoMemory> {
    let mut words = Items::new(alloc);
    words.push(Bytes::from_slice(alloc, b"/w".as_slice())?)?;
    Ok(words)
}

/// Whether a discovery ends so in a tree of so many tests, where so many were counted.
fn ends_grown(alloc: Global, counted: usize, tests: usize, due: &str) -> bool {
    let Ok(words) = words(alloc) else {
        return false;
    };
    let mut tree = WideTree { counted, tests };
    let found = discover(alloc, &mut tree, words.as_slice());
    end_of(&found, tests) == due
}

/// Whether a discovery in a tree of so many tests ends so.
fn ends(alloc: Global, tests: usize, due: &str) -> bool {
    ends_grown(alloc, tests, tests, due)
}

#[test]
fn a_directory_may_have_more_than_when_it_was_counted(rt: HostRuntime) {
    assert!(rt; ends_grown(rt.alloc(), 2, 20, "all"));
    assert!(rt; ends_grown(rt.alloc(), 20, 2, "all"));
}

#[test]
fn a_run_has_up_to_100000_tests(rt: HostRuntime) {
    assert!(rt; ends(rt.alloc(), 100_000, "all"));
    assert!(rt; ends(rt.alloc(), 100_001, "too many tests"));
}

#[test]
fn up_to_a_million_items_are_looked_at(rt: HostRuntime) {
    assert!(rt; ends(rt.alloc(), 999_999, "too many tests"));
    assert!(rt; ends(rt.alloc(), 1_000_000, "too many files"));
    assert!(rt; ends_grown(rt.alloc(), 2, 1_000_000, "too many files"));
}
