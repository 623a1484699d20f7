//! What a directory tells.
ghost use Rattle.std.specs.Prelude.{◌≡◌, ◌≤◌, ◌++◌, ◌∷◌, [], IfErr, IfOk, IfSome};
ghost use Rattle.tt_outside.specs.Faults.{Rose};
ghost use Rattle.lit_suite.specs.Whole.{IsWhole};
ghost use Rattle.lit_paths.specs.Paths.{AreParts, text_of};
ghost use Rattle.lit_dirs.specs.Looks.{GivesCounting, GivesListing, GivesReading, GivesSuite, HoldsSteady, IsGone, IsTreeFault, Shows};
ghost use Rattle.lit_dirs.specs.Suites.{suite_path};

use crate::fault::DiscoverFault;
use crate::names::{CONFIG, SUITE_FILE, has_suite_file, python_of};
use lit_paths::{text_of, with_name};
use lit_suite::{Suite, SuiteFail, read_suite};
use std::alloc::Global;
use tt_base::{Bytes, Items, NoMemory};
use tt_outside::{Counted, Item, Tree, TreeFault};

/// The longest suite file, in bytes.
const MAX_SUITE: u64 = 65_536;

/// What a directory lists; none, where a file has the path.
pub fn list_dir<T: Tree>(
    alloc: Global,
    tree: &mut T,
    dir: &[Bytes],
) -> Result<Option<Items<Item>>, DiscoverFault>
    ensures gives { GivesListing (T.nodes tree.old) dir.now result }
    ensures gone { IfErr result (IsGone dir.now) }
    ensures nodes { T.nodes tree.new ≡ T.nodes tree.old }
    ensures root { T.root tree.new ≡ T.root tree.old }
    ensures later { T.faults tree.old ≤ T.faults tree.new }
    ensures cause { IsTreeFault result → Rose (T.faults tree.old) (T.faults tree.new) }
    ensures calm { ¬ IsTreeFault result → T.faults tree.new ≡ T.faults tree.old }
    ensures steady { HoldsSteady T.steady T.faults tree.old tree.new result }
{
    let path = text_of(alloc, dir)?;
    match tree.list(alloc, path.as_slice()) {
        Ok(items) => Ok(Some(items)),
        Err(TreeFault::NotDirectory) => Ok(None),
        Err(TreeFault::Missing) => Err(DiscoverFault::Missing(path)),
        Err(TreeFault::Failed) => Err(DiscoverFault::TreeFault),
        // A tree that is listed never answers this.
        Err(TreeFault::TooLarge) => unreachable!(),
        Err(TreeFault::NoMemory) => Err(DiscoverFault::NoMemory),
    }
}

/// How many items a directory lists, and those of the names that it is looked at for; none, where a file has the path.
#[tactic(auto, using(crate::proofs::LookLemmas::counts_and_shows))]
pub fn count_dir<T: Tree>(
    alloc: Global,
    tree: &mut T,
    dir: &[Bytes],
) -> Result<Option<Counted>, DiscoverFault>
    requires { AreParts dir.now }
    ensures gives { GivesCounting (T.nodes tree.old) dir.now result }
    ensures gone { IfErr result (IsGone dir.now) }
    ensures nodes { T.nodes tree.new ≡ T.nodes tree.old }
    ensures root { T.root tree.new ≡ T.root tree.old }
    ensures later { T.faults tree.old ≤ T.faults tree.new }
    ensures cause { IsTreeFault result → Rose (T.faults tree.old) (T.faults tree.new) }
    ensures calm { ¬ IsTreeFault result → T.faults tree.new ≡ T.faults tree.old }
    ensures steady { HoldsSteady T.steady T.faults tree.old tree.new result }
{
    let path = text_of(alloc, dir)?;
    match tree.count(alloc, path.as_slice(), &CONFIG) {
        Ok(few) => Ok(Some(few)),
        Err(TreeFault::NotDirectory) => Ok(None),
        Err(TreeFault::Missing) => Err(DiscoverFault::Missing(path)),
        Err(TreeFault::Failed) => Err(DiscoverFault::TreeFault),
        // A tree that is counted never answers this.
        Err(TreeFault::TooLarge) => unreachable!(),
        Err(TreeFault::NoMemory) => Err(DiscoverFault::NoMemory),
    }
}

/// The path of a name in a directory.
fn path_of(alloc: Global, dir: &[Bytes], name: &[u8]) -> Result<Bytes, NoMemory>
    ensures { IfOk result (λ path. path ≡ text_of (dir.now ++ name.now ∷ [])) }
{
    text_of(alloc, with_name(alloc, dir, name)?.as_slice())
}

/// The path of a directory's suite file.
fn suite_path(alloc: Global, dir: &[Bytes]) -> Result<Bytes, NoMemory>
    ensures { IfOk result (λ path. path ≡ suite_path dir.now) }
{
    path_of(alloc, dir, SUITE_FILE.as_bytes())
}

/// What the suite file of a directory reads as.
#[tactic(auto, using(crate::proofs::ReadLemmas::read_well, crate::proofs::ReadLemmas::read_badly, crate::proofs::ReadLemmas::not_there, crate::proofs::ReadLemmas::too_large))]
fn read_in<T: Tree>(alloc: Global, tree: &mut T, dir: &[Bytes]) -> Result<Suite, DiscoverFault>
    ensures gives { GivesReading (T.nodes tree.old) dir.now result }
    ensures gone { IfErr result (IsGone dir.now) }
    ensures whole { IfOk result IsWhole }
    ensures nodes { T.nodes tree.new ≡ T.nodes tree.old }
    ensures root { T.root tree.new ≡ T.root tree.old }
    ensures later { T.faults tree.old ≤ T.faults tree.new }
    ensures cause { IsTreeFault result → Rose (T.faults tree.old) (T.faults tree.new) }
    ensures calm { ¬ IsTreeFault result → T.faults tree.new ≡ T.faults tree.old }
    ensures steady { HoldsSteady T.steady T.faults tree.old tree.new result }
{
    let path = suite_path(alloc, dir)?;
    match tree.read_all(alloc, path.as_slice(), MAX_SUITE) {
        Ok(bytes) => match read_suite(alloc, bytes.as_slice()) {
            Ok(suite) => Ok(suite),
            Err(SuiteFail::Bad(fault)) => Err(DiscoverFault::BadSuite { path, fault }),
            Err(SuiteFail::NoMemory) => Err(DiscoverFault::NoMemory),
        },
        Err(TreeFault::Missing) => Err(DiscoverFault::Missing(path)),
        Err(TreeFault::TooLarge) => Err(DiscoverFault::SuiteTooLarge(path)),
        Err(TreeFault::Failed) => Err(DiscoverFault::TreeFault),
        // A file that is read is never answered by this.
        Err(TreeFault::NotDirectory) => unreachable!(),
        Err(TreeFault::NoMemory) => Err(DiscoverFault::NoMemory),
    }
}

/// The suite of a directory that has these items under the names that it is looked at for, if it has one; or what
/// refuses the directory.
pub fn look_in<T: Tree>(
    alloc: Global,
    tree: &mut T,
    dir: &[Bytes],
    items: &[Item],
) -> Result<Option<Suite>, DiscoverFault>
    requires { IfSome (T.nodes tree.old) (λ nodes. Shows nodes dir.now items.now) }
    ensures gives { GivesSuite (T.nodes tree.old) dir.now result }
    ensures gone { IfErr result (IsGone dir.now) }
    ensures whole { IfOk result (λ suite. IfSome suite IsWhole) }
    ensures nodes { T.nodes tree.new ≡ T.nodes tree.old }
    ensures root { T.root tree.new ≡ T.root tree.old }
    ensures later { T.faults tree.old ≤ T.faults tree.new }
    ensures cause { IsTreeFault result → Rose (T.faults tree.old) (T.faults tree.new) }
    ensures calm { ¬ IsTreeFault result → T.faults tree.new ≡ T.faults tree.old }
    ensures steady { HoldsSteady T.steady T.faults tree.old tree.new result }
{
    if let Some(name) = python_of(items) {
        let path = path_of(alloc, dir, name.as_bytes())?;
        return Err(DiscoverFault::PythonConfig(path));
    }
    if !has_suite_file(items) {
        return Ok(None);
    }
    match read_in(alloc, tree, dir) {
        Ok(suite) => Ok(Some(suite)),
        Err(fault) => Err(fault),
    }
}
