//! What a directory tells.
use crate::rows::{Tells, are_bytes, each_is_told};
use crate::trees::{refusal, tree_of};
use lit_dirs::{DiscoverFault, list_dir, look_in};
use lit_paths::read_path;
use lit_suite::Suite;
use std::alloc::Global;
use tt_base::{Bytes, NoMemory};
use tt_outside::MemTree;

/// The name of a suite that was found, or the refusal.
fn shown(alloc: Global, found: &Result<Option<Suite>, DiscoverFault>) -> Result<Bytes, NoMemory> {
    match found {
        Ok(Some(suite)) => Bytes::from_slice(alloc, suite.name.as_slice()),
        Ok(None) => Bytes::from_slice(alloc, b"no suite".as_slice()),
        Err(fault) => refusal(alloc, fault),
    }
}

/// What a directory of a tree tells: the name of its suite, or the refusal.
fn looked(alloc: Global, tree: &mut MemTree, dir: &str) -> Result<Bytes, NoMemory> {
    let dir = read_path(alloc, dir.as_bytes())?;
    let items = match list_dir(alloc, tree, dir.as_slice()) {
        Ok(Some(items)) => items,
        Ok(None) => return Bytes::from_slice(alloc, b"file".as_slice()),
        Err(fault) => return refusal(alloc, &fault),
    };
    let found = look_in(alloc, tree, dir.as_slice(), items.as_slice());
    shown(alloc, &found)
}

const FILES: &str = r#"/w/p/lit.suite.toml => version = 1~name = "demo"~suffixes = [".txt"]~
/w/p/lit.site.cfg
/w/p/lit.cfg.py
/w/q/lit.suite.toml => version = 1~name = "demo"~suffixes = [".txt"]~
/w/q/lit.cfg/a
/w/b/lit.suite.toml => =
/w/e/lit.suite.toml/a
/lit.local.cfg"#;

/// What a directory tells, where these calls of the tree fail.
fn told(alloc: Global, fails: &[u64], dir: &str) -> Result<Bytes, NoMemory> {
    let mut tree = tree_of(alloc, FILES, fails)?;
    looked(alloc, &mut tree, dir)
}

/// What a directory tells.
struct Looks;

impl Tells for Looks {
    fn told(&self, alloc: Global, given: &str) -> Result<Bytes, NoMemory> {
        told(alloc, &[], given)
    }
}

/// Directories, and what they tell.
const TOLD: &str = "/w/p => Python /w/p/lit.cfg.py
/w/q => demo
/w/b => no TOML /w/b/lit.suite.toml
/w/e => no suite
/w => no suite
/ => Python /lit.local.cfg
/w/z => missing /w/z
/w/e/lit.suite.toml/a => file";

#[test]
fn a_directory_tells_its_suite_or_its_refusal(rt: HostRuntime) -> Result<(), NoMemory> {
    each_is_told(&rt, rt.alloc(), TOLD, &Looks)
}

#[test]
fn a_tree_that_fails_is_told(rt: HostRuntime) -> Result<(), NoMemory> {
    for call in [0, 1] {
        let told = told(rt.alloc(), &[call], "/w/q");
        assert!(rt; are_bytes(told, b"fault".as_slice())?, "call {call}");
    }
    Ok(())
}
