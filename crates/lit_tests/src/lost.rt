//! A tree that loses what it listed, and tells nothing of what it holds.
use crate::rows::{Tells, each_is_told, no_row};
use crate::trees::refusal;
use lit_dirs::DiscoverFault;
use lit_find::{Discovery, discover};
use std::alloc::Global;
use tt_base::{Bytes, Items, NoMemory};
use tt_outside::{Counted, Item, ItemKind, Tree, TreeFault};

/// What became of what `/w` lists: its suite file, and a directory.
#[derive(Clone, Copy, PartialEq, Eq)]
enum Loss {
    Directory,
    DirectoryIsAFile,
    SuiteFile,
}

/// A tree whose `/w` lists a suite file and a directory of this name, of which one is lost when it is asked for.
#[derive(Drop)]
struct LosingTree {
    name: Bytes,
    loss: Loss,
}

fn item(alloc: Global, name: &[u8], kind: ItemKind) -> Result<Item, NoMemory> {
    Ok(Item {
        name: Bytes::from_slice(alloc, name)?,
        kind,
    })
}

fn items_of(alloc: Global, name: &[u8]) -> Result<Items<Item>, NoMemory> {
    let mut items = Items::new(alloc);
    items.push(item(alloc, b"lit.suite.toml".as_slice(), ItemKind::File)?)?;
    items.push(item(alloc, name, ItemKind::Dir)?)?;
    Ok(items)
}

impl Tree for LosingTree {
    ghost use Rattle.std.specs.Prelude.{None, codes};

    ghost nodes = { λ _. None };

    ghost root = { λ _. codes "/" };

    ghost faults = { λ _. 0 };

    fn base(&self) -> &[u8] {
        b"/".as_slice()
    }

    fn list(&mut self, alloc: Global, dir: &[u8]) -> Result<Items<Item>, TreeFault> {
        if dir != b"/w".as_slice() {
            return match self.loss {
                Loss::DirectoryIsAFile => Err(TreeFault::NotDirectory),
                Loss::Directory | Loss::SuiteFile => Err(TreeFault::Missing),
            };
        }
        match items_of(alloc, self.name.as_slice()) {
            Ok(items) => Ok(items),
            Err(NoMemory) => Err(TreeFault::NoMemory),
        }
    }

    fn count(&mut self, alloc: Global, dir: &[u8], _names: &[&str]) -> Result<Counted, TreeFault> {
        let named = self.list(alloc, dir)?;
        Ok(Counted {
            count: named.len(),
            named,
        })
    }

    fn read_all(&mut self, alloc: Global, _name: &[u8], limit: u64) -> Result<Bytes, TreeFault> {
        let text = b"version = 1\nname = \"w\"\nsuffixes = [\".txt\"]\n".as_slice();
        if self.loss == Loss::SuiteFile {
            return Err(TreeFault::Missing);
        }
        if text.len() as u64 > limit {
            return Err(TreeFault::TooLarge);
        }
        match Bytes::from_slice(alloc, text) {
            Ok(bytes) => Ok(bytes),
            Err(NoMemory) => Err(TreeFault::NoMemory),
        }
    }
}

/// Whether tests were found, or the refusal.
fn shown(alloc: Global, found: &Result<Discovery, DiscoverFault>) -> Result<Bytes, NoMemory> {
    match found {
        Ok(_) => Bytes::from_slice(alloc, b"tests".as_slice()),
        Err(fault) => refusal(alloc, fault),
    }
}

/// What is told of a discovery in a tree with such a loss.
fn told(alloc: Global, name: &str, loss: Loss) -> Result<Bytes, NoMemory> {
    let mut words = Items::new(alloc);
    words.push(Bytes::from_slice(alloc, b"/w".as_slice())?)?;
    let mut tree = LosingTree {
        name: Bytes::from_slice(alloc, name.as_bytes())?,
        loss,
    };
    let found = discover(alloc, &mut tree, words.as_slice());
    shown(alloc, &found)
}

fn loss_of(word: &str) -> Loss {
    match word {
        "is gone" => Loss::Directory,
        "is a file" => Loss::DirectoryIsAFile,
        _ => Loss::SuiteFile,
    }
}

/// What is told of a name and a loss.
struct Lost;

impl Tells for Lost {
    fn told(&self, alloc: Global, given: &str) -> Result<Bytes, NoMemory> {
        match given.split_once(" => ") {
            Some((name, loss)) => told(alloc, name, loss_of(loss)),
            None => no_row(alloc),
        }
    }
}

/// The name of a listed directory, what is lost, and what is told. Under a name with a slash nothing stands.
const LOST: &str = "d => is gone => missing /w/d
d => is a file => missing /w/d
d/e => is gone => no tests
d/e => no suite file => missing /w/lit.suite.toml
d => no suite file => missing /w/lit.suite.toml";

#[test]
fn what_vanished_is_missing(rt: HostRuntime) -> Result<(), NoMemory> {
    each_is_told(&rt, rt.alloc(), LOST, &Lost)
}
