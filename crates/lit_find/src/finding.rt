//! Discovery.
ghost use Rattle.std.specs.Prelude.{◌≡◌, ◌≤◌, IfOk, length, map, true};
ghost use Rattle.std.specs.List.{list_all};
ghost use Rattle.lit_find.specs.Found.{Discovers};
ghost use Rattle.lit_find.specs.Walk.{AddsWords, Walks};
ghost use Rattle.lit_look.specs.Trees.{Leaves, fault_of};
ghost use Rattle.lit_paths.specs.Paths.{joined};
ghost use Rattle.tt_outside.specs.TreeMap.{is_part};

use crate::discovery::Discovery;
use crate::pending::Pending;
use crate::walk::Walk;
use crate::words::add_word;
use lit_dirs::DiscoverFault;
use lit_look::SeenFolders;
use lit_paths::{joined, read_path};
use std::alloc::Global;
use std::collections::BTreeSet;
use tt_base::Bytes;
use tt_outside::Tree;

/// How many tests a run has at most.
const MAX_TESTS: usize = 100_000;

/// Finds the tests of words, up to the first that is refused.
fn add_words<T: Tree>(
    alloc: Global,
    tree: &mut T,
    seen: &mut SeenFolders,
    walk: &mut Walk,
    base: &[Bytes],
    texts: &[Bytes],
) -> Result<(), DiscoverFault>
    requires parts { list_all is_part base.now ≡ true }
    ensures gives { AddsWords (T.nodes tree.old) (map (joined base.now) texts.now) seen.old seen.new walk.old walk.new
        result }
    ensures tree { Leaves T.nodes T.root T.faults T.steady tree.old tree.new (fault_of result) }
{
    for text in texts {
        let word = joined(alloc, base, text.as_slice())?;
        match add_word(alloc, tree, seen, walk, word.as_slice()) {
            Ok(()) => {}
            Err(fault) => return Err(fault),
        }
    }
    Ok(())
}

/// What the walk of words found; or the first refusal.
fn walk_words<T: Tree>(
    alloc: Global,
    tree: &mut T,
    paths: &[Bytes],
) -> Result<Discovery, DiscoverFault>
    ensures walk { Walks (T.nodes tree.old) (T.root tree.old) paths.now result }
    ensures tree { Leaves T.nodes T.root T.faults T.steady tree.old tree.new (fault_of result) }
{
    let base = read_path(alloc, tree.base())?;
    let mut seen = SeenFolders::new(alloc);
    let mut walk = Walk {
        found: Discovery::new(alloc),
        walked: BTreeSet::new(alloc),
        taken: 0,
        pending: Pending::new(alloc),
    };
    match add_words(alloc, tree, &mut seen, &mut walk, base.as_slice(), paths) {
        Ok(()) => Ok(walk.found),
        Err(fault) => Err(fault),
    }
}

/// The tests that path words name, each once, in byte order of their paths; or the first refusal.
pub fn discover<T: Tree>(
    alloc: Global,
    tree: &mut T,
    paths: &[Bytes],
) -> Result<Discovery, DiscoverFault>
    ensures found { Discovers (T.nodes tree.old) (T.root tree.old) paths.now result }
    ensures few { IfOk result (λ tests. length tests ≤ 100000) }
    ensures tree { Leaves T.nodes T.root T.faults T.steady tree.old tree.new (fault_of result) }
{
    let found = match walk_words(alloc, tree, paths) {
        Ok(found) => found,
        Err(fault) => return Err(fault),
    };
    let tests = found.in_order();
    if tests.len() > MAX_TESTS {
        return Err(DiscoverFault::TooMany);
    }
    if tests.is_empty() {
        return Err(DiscoverFault::NoTests);
    }
    Ok(tests)
}
