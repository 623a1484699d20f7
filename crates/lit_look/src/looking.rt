//! A look at a directory.
ghost use Rattle.std.specs.Prelude.{◌≡◌, IfErr, IfOk, IfSome, true};
ghost use Rattle.std.specs.List.{list_all};
ghost use Rattle.lit_suite.specs.Whole.{IsWhole};
ghost use Rattle.lit_dirs.specs.Looks.{Counts, IsGone, Shows};
ghost use Rattle.lit_look.specs.Looks.{Extends, IsNumberOf, Looks, LooksInto, LooksThrough};
ghost use Rattle.lit_look.specs.Seen.{Has, Roots};
ghost use Rattle.lit_look.specs.Trees.{Leaves, fault_of};
ghost use Rattle.tt_outside.specs.TreeMap.{is_part};

use crate::root::{SharedRoot, SuiteRoot};
use crate::seen::{Looked, SeenFolders};
use lit_dirs::{DiscoverFault, count_dir, list_dir, look_in};
use lit_paths::copied;
use lit_suite::Suite;
use std::alloc::Global;
use tt_base::{Bytes, Items, NoMemory};
use tt_outside::{Item, Tree};

/// The suite of a directory, to be shared.
fn rooted(
    alloc: Global,
    dir: &[Bytes],
    suite: Option<Suite>,
) -> Result<Option<SharedRoot>, NoMemory>
    requires { IfSome suite IsWhole }
    ensures { IfOk result (Roots dir.now suite) }
{
    match suite {
        Some(suite) => {
            let dir = copied(alloc, dir)?;
            Ok(Some(SharedRoot::new(alloc, SuiteRoot { dir, suite })?))
        }
        None => Ok(None),
    }
}

/// Adds a directory of so many items, some of which are those under the names that it is looked at for, with its suite.
/// Gives its number; or what refuses the directory.
fn enter<T: Tree>(
    alloc: Global,
    tree: &mut T,
    seen: &mut SeenFolders,
    dir: &[Bytes],
    count: usize,
    items: &[Item],
) -> Result<usize, DiscoverFault>
    requires parts { list_all is_part dir.now ≡ true }
    requires counts { IfSome (T.nodes tree.old) (λ nodes. Counts nodes dir.now count) }
    requires shows { IfSome (T.nodes tree.old) (λ nodes. Shows nodes dir.now items.now) }
    requires new { ¬ (Has seen.old dir.now) }
    ensures gives { LooksInto (T.nodes tree.old) dir.now seen.old seen.new result }
    ensures gone { IfErr result (IsGone dir.now) }
    ensures number { IfOk result (IsNumberOf seen.new dir.now) }
    ensures extends { Extends seen.old seen.new }
    ensures tree { Leaves T.nodes T.root T.faults T.steady tree.old tree.new (fault_of result) }
{
    if !seen.has_room(count) {
        return Err(DiscoverFault::TooManyItems);
    }
    match look_in(alloc, tree, dir, items) {
        Ok(suite) => {
            let suite = rooted(alloc, dir, suite)?;
            let dir = copied(alloc, dir)?;
            Ok(seen.add(alloc, Looked { dir, count, suite })?)
        }
        Err(fault) => Err(fault),
    }
}

/// Looks at a directory, if it wasn't looked at, and gives its number; none, where a file has the path. Of its items the
/// tree tells those alone that it is looked at for.
pub fn look<T: Tree>(
    alloc: Global,
    tree: &mut T,
    seen: &mut SeenFolders,
    dir: &[Bytes],
) -> Result<Option<usize>, DiscoverFault>
    requires parts { list_all is_part dir.now ≡ true }
    ensures gives { Looks (T.nodes tree.old) dir.now seen.old seen.new result }
    ensures gone { IfErr result (IsGone dir.now) }
    ensures number { IfOk result (λ found. IfSome found (IsNumberOf seen.new dir.now)) }
    ensures extends { Extends seen.old seen.new }
    ensures tree { Leaves T.nodes T.root T.faults T.steady tree.old tree.new (fault_of result) }
{
    if let Some(number) = seen.number_of(alloc, dir)? {
        return Ok(Some(number));
    }
    match count_dir(alloc, tree, dir) {
        Ok(Some(few)) => match enter(alloc, tree, seen, dir, few.count, few.named.as_slice()) {
            Ok(number) => Ok(Some(number)),
            Err(fault) => Err(fault),
        },
        Ok(None) => Ok(None),
        Err(fault) => Err(fault),
    }
}

/// Lists a directory, and looks at it, if it wasn't looked at. Gives its number and what it lists; none, where a file has
/// the path.
pub fn look_through<T: Tree>(
    alloc: Global,
    tree: &mut T,
    seen: &mut SeenFolders,
    dir: &[Bytes],
) -> Result<Option<(usize, Items<Item>)>, DiscoverFault>
    requires parts { list_all is_part dir.now ≡ true }
    ensures gives { LooksThrough (T.nodes tree.old) dir.now seen.old seen.new result }
    ensures gone { IfErr result (IsGone dir.now) }
    ensures number { IfOk result (λ found. IfSome found (λ one. IsNumberOf seen.new dir.now one.0)) }
    ensures extends { Extends seen.old seen.new }
    ensures tree { Leaves T.nodes T.root T.faults T.steady tree.old tree.new (fault_of result) }
{
    let items = match list_dir(alloc, tree, dir) {
        Ok(Some(items)) => items,
        Ok(None) => return Ok(None),
        Err(fault) => return Err(fault),
    };
    if let Some(number) = seen.number_of(alloc, dir)? {
        return Ok(Some((number, items)));
    }
    match enter(alloc, tree, seen, dir, items.len(), items.as_slice()) {
        Ok(number) => Ok(Some((number, items))),
        Err(fault) => Err(fault),
    }
}
