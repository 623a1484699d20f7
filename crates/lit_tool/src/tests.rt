//! The tests of a run, and their names.
ghost use Rattle.std.specs.Prelude.{◌≡◌, ◌≤◌, IfOk, IfSome, None, length};
ghost use Rattle.lit_words.specs.Asked.{wanted};
ghost use Rattle.lit_words.specs.Number.{IsShard};
ghost use Rattle.lit_tool.specs.Run.{NamesFrom, TestsFrom, tree};

use crate::kept::{kept_of, names_in, unless_none};
use crate::stop::LitStop;
use lit_dirs::DiscoverFault;
use lit_find::discover;
use lit_words::LitAsked;
use std::alloc::Global;
use tt_base::{Bytes, Items, NoMemory};
use tt_outside::{Test, Tree};

/// The tests that are run, or why there are none.
pub(crate) fn tests_from<T: Tree>(
    alloc: Global,
    asked: &LitAsked,
    from: &mut T,
) -> Result<Result<Items<Test>, LitStop>, NoMemory>
    requires { IfSome asked.now.shard IsShard }
    ensures value { IfOk result (TestsFrom (tree T.Tree from.old from.new) (wanted asked.now)) }
    ensures few { IfOk result (λ outcome. IfOk outcome (λ tests. length tests ≤ 100000)) }
    ensures nodes { T.nodes from.new ≡ T.nodes from.old }
    ensures root { T.root from.new ≡ T.root from.old }
    ensures later { T.faults from.old ≤ T.faults from.new }
{
    match discover(alloc, from, asked.paths.as_slice()) {
        Ok(found) => kept_of(alloc, asked, found.into_tests(alloc)?),
        Err(DiscoverFault::NoMemory) => Err(NoMemory),
        Err(fault) => Ok(Err(LitStop::Discovery(fault))),
    }
}

/// The names of the tests that are shown, or why there are none.
pub(crate) fn names_from<T: Tree>(
    alloc: Global,
    asked: &LitAsked,
    from: &mut T,
) -> Result<Result<Items<Bytes>, LitStop>, NoMemory>
    requires { IfSome asked.now.shard IsShard }
    ensures value { IfOk result (NamesFrom (tree T.Tree from.old from.new) (wanted asked.now)) }
    ensures nodes { T.nodes from.new ≡ T.nodes from.old }
    ensures root { T.root from.new ≡ T.root from.old }
    ensures later { T.faults from.old ≤ T.faults from.new }
{
    match (&asked.select, &asked.drop) {
        (None, None) => all_from(alloc, asked, from),
        _ => chosen_from(alloc, asked, from),
    }
}

/// The names where no expression chooses among them: each test is its name alone.
fn all_from<T: Tree>(
    alloc: Global,
    asked: &LitAsked,
    from: &mut T,
) -> Result<Result<Items<Bytes>, LitStop>, NoMemory>
    requires shard { IfSome asked.now.shard IsShard }
    requires select { asked.now.select ≡ None }
    requires drop { asked.now.drop ≡ None }
    ensures value { IfOk result (NamesFrom (tree T.Tree from.old from.new) (wanted asked.now)) }
    ensures nodes { T.nodes from.new ≡ T.nodes from.old }
    ensures root { T.root from.new ≡ T.root from.old }
    ensures later { T.faults from.old ≤ T.faults from.new }
{
    match discover(alloc, from, asked.paths.as_slice()) {
        Ok(found) => unless_none(alloc, asked.shard, found.names(alloc)?),
        Err(DiscoverFault::NoMemory) => Err(NoMemory),
        Err(fault) => Ok(Err(LitStop::Discovery(fault))),
    }
}

/// The names where an expression chooses among them.
fn chosen_from<T: Tree>(
    alloc: Global,
    asked: &LitAsked,
    from: &mut T,
) -> Result<Result<Items<Bytes>, LitStop>, NoMemory>
    requires { IfSome asked.now.shard IsShard }
    ensures value { IfOk result (NamesFrom (tree T.Tree from.old from.new) (wanted asked.now)) }
    ensures nodes { T.nodes from.new ≡ T.nodes from.old }
    ensures root { T.root from.new ≡ T.root from.old }
    ensures later { T.faults from.old ≤ T.faults from.new }
{
    let tests = tests_from(alloc, asked, from)?;
    names_in(alloc, tests)
}
