//! The tests of a word.
ghost use Rattle.std.specs.Prelude.{◌≡◌, true};
ghost use Rattle.std.specs.List.{list_all};
ghost use Rattle.lit_find.specs.Walk.{AddsFile, AddsWord};
ghost use Rattle.lit_look.specs.Trees.{Leaves, fault_of};
ghost use Rattle.tt_outside.specs.TreeMap.{is_part};

use crate::pending::key_of;
use crate::place::TestFile;
use crate::visit::walk_all;
use crate::walk::Walk;
use lit_dirs::DiscoverFault;
use lit_look::{SeenFolders, nearest};
use lit_paths::text_of;
use std::alloc::Global;
use tt_base::Bytes;
use tt_outside::Tree;

/// Takes a file as a test.
fn add_file<T: Tree>(
    alloc: Global,
    tree: &mut T,
    seen: &mut SeenFolders,
    walk: &mut Walk,
    word: &[Bytes],
) -> Result<(), DiscoverFault>
    requires parts { list_all is_part word.now ≡ true }
    ensures gives { AddsFile (T.nodes tree.old) word.now seen.old seen.new walk.old walk.new result }
    ensures tree { Leaves T.nodes T.root T.faults T.steady tree.old tree.new (fault_of result) }
{
    let path = text_of(alloc, word)?;
    match word.split_last() {
        Some((_, dir)) => match nearest(alloc, tree, seen, dir, word) {
            Ok(Some(suite)) => Ok(walk.found.put(TestFile { path, suite })?),
            // A file has taken the directory's place.
            Ok(None) => Err(DiscoverFault::Missing(text_of(alloc, dir)?)),
            Err(fault) => Err(fault),
        },
        // A file at `/` stands in no directory.
        None => Err(DiscoverFault::Missing(path)),
    }
}

/// Finds the tests of a word.
pub(crate) fn add_word<T: Tree>(
    alloc: Global,
    tree: &mut T,
    seen: &mut SeenFolders,
    walk: &mut Walk,
    word: &[Bytes],
) -> Result<(), DiscoverFault>
    requires parts { list_all is_part word.now ≡ true }
    ensures gives { AddsWord (T.nodes tree.old) word.now seen.old seen.new walk.old walk.new result }
    ensures tree { Leaves T.nodes T.root T.faults T.steady tree.old tree.new (fault_of result) }
{
    match nearest(alloc, tree, seen, word, word) {
        Ok(Some(suite)) => {
            walk.pending.put(key_of(alloc, word)?, suite)?;
            walk_all(alloc, tree, seen, walk)
        }
        Ok(None) => add_file(alloc, tree, seen, walk, word),
        Err(fault) => Err(fault),
    }
}
