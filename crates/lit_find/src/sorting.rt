//! What a directory lists, for a walk.
ghost use Rattle.std.specs.Prelude.{◌≡◌, ◌++◌, ◌∷◌, [], IfOk, OnOk};
ghost use Rattle.lit_look.specs.Suites.{LiesIn};
ghost use Rattle.lit_paths.specs.Paths.{Parts, slashed, text_of};
ghost use Rattle.lit_find.specs.Sorting.{with_item, with_items};
ghost use Rattle.tt_outside.specs.TreeMap.{is_part};

use crate::pending::key_in;
use crate::place::TestFile;
use crate::walk::Walk;
use lit_dirs::{has_suffix, is_passed};
use lit_look::SharedRoot;
use lit_paths::{chained, front_of};
use std::alloc::Global;
use tt_base::{Bytes, NoMemory};
use tt_outside::{Item, ItemKind};

/// Whether a name is one part of a path.
fn is_part(name: &[u8]) -> bool
    ensures { result ≡ is_part name.now }
{
    !name.is_empty() && !name.contains(&b'/')
}

/// The text of an item's path. `front` stands before the names in its directory.
#[tactic(auto, using(crate::proofs::PathLemmas::name_text))]
fn text_in(alloc: Global, front: &[u8], item: &Item) -> Result<Bytes, NoMemory>
    ensures { (dir : Parts) → front.now ≡ slashed dir ++ 47 ∷ []
        → IfOk result (λ text. text ≡ text_of (dir ++ item.now.name ∷ [])) }
{
    chained(alloc, &[front, item.name.as_slice()])
}

/// Keeps an item: a file that is a test, or a directory that is to be walked through. `front` stands before the names
/// in the directory that lists it.
fn sort_item(
    alloc: Global,
    root: &SharedRoot,
    dir: &[Bytes],
    front: &[u8],
    item: &Item,
    walk: &mut Walk,
) -> Result<(), NoMemory>
    requires front { front.now ≡ slashed dir.now ++ 47 ∷ [] }
    requires inside { LiesIn root.now.dir dir.now }
    ensures sorted { OnOk result (walk.new ≡ with_item root.now dir.now walk.old item.now) }
    ensures walked { walk.new.walked ≡ walk.old.walked }
    ensures taken { walk.new.taken ≡ walk.old.taken }
{
    let suite = &root.get().suite;
    // Nothing stands under a name that is no part of a path, whatever the tree lists.
    if !is_part(item.name.as_slice()) {
        return Ok(());
    }
    if is_passed(suite, item.name.as_slice()) {
        return Ok(());
    }
    match item.kind {
        ItemKind::File => {
            let path = text_in(alloc, front, item)?;
            if has_suffix(suite, path.as_slice()) {
                let suite = root.share()?;
                walk.found.put(TestFile { path, suite })?;
            }
        }
        ItemKind::Dir => {
            let key = key_in(alloc, dir, item.name.as_slice())?;
            walk.pending.put(key, root.share()?)?;
        }
        ItemKind::Other => {}
    }
    Ok(())
}

/// Keeps what a directory lists. `root` is its suite.
pub(crate) fn sort_items(
    alloc: Global,
    root: &SharedRoot,
    dir: &[Bytes],
    items: &[Item],
    walk: &mut Walk,
) -> Result<(), NoMemory>
    requires { LiesIn root.now.dir dir.now }
    ensures sorted { OnOk result (walk.new ≡ with_items root.now dir.now walk.old items.now) }
    ensures walked { walk.new.walked ≡ walk.old.walked }
    ensures taken { walk.new.taken ≡ walk.old.taken }
{
    let front = front_of(alloc, dir)?;
    for item in items {
        sort_item(alloc, root, dir, front.as_slice(), item, walk)?;
    }
    Ok(())
}
