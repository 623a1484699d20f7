//! The walk through directories.
ghost use Rattle.std.specs.Prelude.{◌≡◌, ◌-◌, ◌≤◌, ◌||◌, [], ℕ, IfErr, List, OnOk, length};
ghost use Rattle.std.specs.Option.{unwrap_or};
ghost use Rattle.lit_dirs.specs.Looks.{IsGone};
ghost use Rattle.lit_find.specs.Places.{IsInside};
ghost use Rattle.lit_find.specs.Walk.{GoesOn, GoesThrough, IsThrough, has_text, room, same_text};
ghost use Rattle.lit_look.specs.Seen.{HasRoot};
ghost use Rattle.lit_look.specs.Suites.{LiesIn};
ghost use Rattle.lit_look.specs.Trees.{Leaves, fault_of};
ghost use Rattle.lit_paths.specs.Paths.{text_of};

use crate::place::Place;
use crate::sorting::sort_items;
use crate::walk::Walk;
use lit_dirs::DiscoverFault;
use lit_look::{Looked, MAX_ITEMS, SeenFolders, SharedRoot, look_through};
use lit_paths::text_of;
use std::alloc::Global;
use std::collections::BTreeSet;
use tt_base::{Bytes, NoMemory};
use tt_outside::{Item, Tree};

/// The suite of a directory: its own, or the one of the directory above it, `known`.
fn own_or<'a>(looked: &'a Looked, known: &'a SharedRoot) -> &'a SharedRoot
    ensures { result.now ≡ unwrap_or looked.now.suite known.now }
{
    match &looked.suite {
        Some(own) => own,
        None => known,
    }
}

/// Marks a directory as walked through.
fn mark(walked: &mut BTreeSet<Vec<u8>>, path: Vec<u8>) -> Result<(), NoMemory>
    ensures { OnOk result ((text : List ℕ)
        → has_text walked.new text ≡ (same_text text path.items || has_text walked.old text)) }
{
    let Ok(_) = walked.insert(path) else {
        return Err(NoMemory);
    };
    Ok(())
}

/// Walks through a directory that was looked at, and lists these items. `known` is the suite of the one above it, and
/// `path` its path.
fn enter(
    alloc: Global,
    looked: &Looked,
    items: &[Item],
    known: &SharedRoot,
    path: Bytes,
    walk: &mut Walk,
) -> Result<(), NoMemory>
    requires inside { LiesIn known.now.dir looked.now.dir }
    requires root { HasRoot looked.now }
    requires path { path ≡ text_of looked.now.dir }
    requires room { length items.now ≤ 1000000 - walk.old.taken }
    ensures { OnOk result (IsThrough looked.now items.now known.now walk.old walk.new) }
{
    mark(&mut walk.walked, path.into_vec())?;
    walk.taken += items.len();
    let root = own_or(looked, known);
    sort_items(alloc, root, looked.dir.as_slice(), items, walk)
}

/// Walks through the directory of a place, unless that was done. One that isn't there any more is told as missing.
fn visit<T: Tree>(
    alloc: Global,
    tree: &mut T,
    seen: &mut SeenFolders,
    walk: &mut Walk,
    place: Place,
) -> Result<(), DiscoverFault>
    requires { IsInside place }
    ensures gives { GoesThrough (T.nodes tree.old) place seen.old seen.new walk.old walk.new result }
    ensures gone { IfErr result (IsGone place.path) }
    ensures room { OnOk result (room walk.new ≤ room walk.old) }
    ensures tree { Leaves T.nodes T.root T.faults T.steady tree.old tree.new (fault_of result) }
{
    let dir = place.path.as_slice();
    let path = text_of(alloc, dir)?;
    if walk.walked.contains(path.as_slice()) {
        return Ok(());
    }
    match look_through(alloc, tree, seen, dir) {
        Ok(Some((number, items))) => {
            let looked = seen.at(number);
            // It may have more than when it was counted.
            if items.len() as u64 > MAX_ITEMS.saturating_sub(walk.taken as u64) {
                return Err(DiscoverFault::TooManyItems);
            }
            match enter(alloc, looked, items.as_slice(), &place.suite, path, walk) {
                Ok(()) => Ok(()),
                Err(NoMemory) => Err(DiscoverFault::NoMemory),
            }
        }
        Ok(None) => Err(DiscoverFault::Missing(path)),
        Err(fault) => Err(fault),
    }
}

/// Walks through the directories before the walk, and those below them.
pub(crate) fn walk_all<T: Tree>(
    alloc: Global,
    tree: &mut T,
    seen: &mut SeenFolders,
    walk: &mut Walk,
) -> Result<(), DiscoverFault>
    ensures gives { GoesOn (T.nodes tree.old) seen.old seen.new walk.old walk.new result }
    ensures done { OnOk result (walk.new.pending ≡ []) }
    ensures tree { Leaves T.nodes T.root T.faults T.steady tree.old tree.new (fault_of result) }
{
    while let Some(place) = walk.pending.pop(alloc)? {
        match visit(alloc, tree, seen, walk, place) {
            Ok(()) => {}
            Err(fault) => return Err(fault),
        }
    }
    Ok(())
}
