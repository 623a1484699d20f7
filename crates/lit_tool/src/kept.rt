//! The tests that are kept of those that were found.
ghost use Rattle.std.specs.Prelude.{◌≡◌, IfOk, IfSome};
ghost use Rattle.lit_words.specs.Asked.{wanted};
ghost use Rattle.lit_words.specs.Number.{IsShard};
ghost use Rattle.lit_tool.specs.Kept.{has_place, kept_of, names_in, names_of, shard_from, unless_none};

use crate::stop::LitStop;
use lit_select::select;
use lit_suite::shard;
use lit_words::{LitAsked, Shard};
use std::alloc::Global;
use tt_base::{Bytes, Items, NoMemory};
use tt_outside::Test;

/// Whether the test of a place, counted from 0, belongs to a shard.
fn has_place(part: Shard, place: u64) -> bool
    requires { IsShard part }
    ensures { result ≡ has_place part place }
{
    shard(place, part.shards, part.run)
}

/// The tests of a shard, or their names, in their order.
#[tactic(auto, using(crate::proofs::ShardLemmas::kept_more, crate::proofs::ShardLemmas::kept_less))]
fn in_shard<A: Drop>(alloc: Global, part: Shard, items: Items<A>) -> Result<Items<A>, NoMemory>
    requires { IsShard part }
    ensures { IfOk result (λ kept. kept ≡ shard_from part 0 items) }
{
    let mut kept = Items::new(alloc);
    let mut place = 0;
    for item in items.into_vec() {
        if has_place(part, place) {
            kept.push(item)?;
        }
        place += 1;
    }
    Ok(kept)
}

/// The selected tests that a shard keeps, or their names.
pub(crate) fn unless_none<A: Drop>(
    alloc: Global,
    shard: Option<Shard>,
    items: Items<A>,
) -> Result<Result<Items<A>, LitStop>, NoMemory>
    requires { IfSome shard IsShard }
    ensures { IfOk result (λ kept. kept ≡ unless_none shard items) }
{
    if items.is_empty() {
        return Ok(Err(LitStop::NoneSelected));
    }
    match shard {
        Some(part) => Ok(Ok(in_shard(alloc, part, items)?)),
        None => Ok(Ok(items)),
    }
}

/// The names of tests.
fn names_of(alloc: Global, tests: Items<Test>) -> Result<Items<Bytes>, NoMemory>
    ensures { IfOk result (λ names. names ≡ names_of tests) }
{
    let mut names = Items::new(alloc);
    for test in tests.into_vec() {
        names.push(test.name)?;
    }
    Ok(names)
}

/// The names of the tests, where there are any.
pub(crate) fn names_in(
    alloc: Global,
    tests: Result<Items<Test>, LitStop>,
) -> Result<Result<Items<Bytes>, LitStop>, NoMemory>
    ensures { IfOk result (λ names. names ≡ names_in tests) }
{
    match tests {
        Ok(tests) => Ok(Ok(names_of(alloc, tests)?)),
        Err(stop) => Ok(Err(stop)),
    }
}

/// The tests that are kept by what is asked for.
pub(crate) fn kept_of(
    alloc: Global,
    asked: &LitAsked,
    tests: Items<Test>,
) -> Result<Result<Items<Test>, LitStop>, NoMemory>
    requires { IfSome asked.now.shard IsShard }
    ensures { IfOk result (λ kept. kept ≡ kept_of (wanted asked.now) tests) }
{
    let tests = select(alloc, tests, &asked.select, &asked.drop)?;
    unless_none(alloc, asked.shard, tests)
}
