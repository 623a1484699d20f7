//! The nearest suite of a directory.
ghost use Rattle.std.specs.Prelude.{◌≡◌, ◌<◌, IfOk, IfSome, length, slice_get, true};
ghost use Rattle.std.specs.List.{list_all};
ghost use Rattle.lit_look.specs.Looks.{Extends, IsNumberOf, LooksUp, suite_of};
ghost use Rattle.lit_look.specs.Suites.{LiesIn};
ghost use Rattle.lit_look.specs.Trees.{Leaves, fault_of};
ghost use Rattle.lit_paths.specs.Paths.{Parts};
ghost use Rattle.tt_outside.specs.TreeMap.{is_part};

use crate::looking::look;
use crate::root::SharedRoot;
use crate::seen::SeenFolders;
use lit_dirs::DiscoverFault;
use lit_paths::text_of;
use std::alloc::Global;
use tt_base::{Bytes, NoMemory};
use tt_outside::Tree;

/// The suite that the directory of a number is the root of.
fn suite_of(seen: &SeenFolders, number: usize) -> Result<Option<SharedRoot>, NoMemory>
    requires { number < length seen.now }
    ensures suite { IfOk result (λ root. root ≡ suite_of (slice_get seen.now number)) }
    ensures here { (dir : Parts) → IsNumberOf seen.now dir number
        → IfOk result (λ root. IfSome root (λ one. one.dir ≡ dir)) }
{
    match &seen.at(number).suite {
        Some(root) => Ok(Some(root.share()?)),
        None => Ok(None),
    }
}

/// The suite of the nearest directory that has one, from a directory upward; none, where a file has the path. `word` is
/// the path that is told where there is no suite.
pub fn nearest<T: Tree>(
    alloc: Global,
    tree: &mut T,
    seen: &mut SeenFolders,
    dir: &[Bytes],
    word: &[Bytes],
) -> Result<Option<SharedRoot>, DiscoverFault>
    requires parts { list_all is_part dir.now ≡ true }
    ensures gives { LooksUp (T.nodes tree.old) dir.now word.now seen.old seen.new result }
    ensures above { IfOk result (λ found. IfSome found (λ root. LiesIn root.dir dir.now)) }
    ensures extends { Extends seen.old seen.new }
    ensures tree { Leaves T.nodes T.root T.faults T.steady tree.old tree.new (fault_of result) }
{
    let mut at = dir;
    loop {
        let number = match look(alloc, tree, seen, at) {
            Ok(Some(number)) => number,
            Ok(None) => {
                if at.len() == dir.len() {
                    return Ok(None);
                }
                // A file has taken the directory's place.
                return Err(DiscoverFault::Missing(text_of(alloc, at)?));
            }
            Err(fault) => return Err(fault),
        };
        if let Some(root) = suite_of(seen, number)? {
            return Ok(Some(root));
        }
        match at.split_last() {
            Some((_, above)) => at = above,
            None => return Err(DiscoverFault::NoSuite(text_of(alloc, word)?)),
        }
    }
}
