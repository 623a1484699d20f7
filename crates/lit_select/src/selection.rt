//! The tests that a run keeps.
ghost use Rattle.std.specs.Prelude.{◌≡◌, ◌<◌, IfOk};
ghost use Rattle.std.specs.Option.{option_map};
ghost use Rattle.ere_tree.specs.View.{view};
ghost use Rattle.lit_select.specs.Selection.{chosen, selected};

use crate::finder::Finder;
use ere_auto::Steps;
use ere_tree::Ere;
use std::alloc::Global;
use std::marker::Brand;
use std::sync::ledger::{Blank, Ledger};
use tt_base::{Items, NoMemory};
use tt_outside::Test;

/// The tests that an expression chooses.
#[tactic(auto, using(crate::proofs::ChosenLemmas::kept_more, crate::proofs::ChosenLemmas::kept_less))]
fn chosen<L: Ledger>(
    alloc: Global,
    tests: Items<Test>,
    ere: &Ere,
    is_wanted: bool,
    steps: &mut Steps<L>,
) -> Result<Items<Test>, NoMemory>
    ensures { IfOk result (λ kept. kept ≡ chosen is_wanted (view ere.now) tests) }
{
    let mut finder = Finder::new(alloc, ere)?;
    let mut kept = Items::new(alloc);
    for test in tests.into_vec() {
        if finder.chooses(alloc, ere, is_wanted, &test, steps)? {
            kept.push(test)?;
        }
    }
    Ok(kept)
}

/// The same as `select`, with steps counted in a ledger that isn't open yet.
fn select_by<L: Ledger>(
    alloc: Global,
    tests: Items<Test>,
    keep: &Option<Ere>,
    drop: &Option<Ere>,
    blank: Blank,
) -> Result<Items<Test>, NoMemory>
    requires name { blank.name ≡ L.name }
    requires parts { blank.parts ≡ L.parts }
    requires some_part { 0 < blank.parts }
    ensures { IfOk result (λ kept. kept ≡ selected (option_map view keep.now) (option_map view drop.now) tests) }
{
    let mut steps = Steps::<L>::new(blank);
    let tests = match keep {
        Some(ere) => chosen(alloc, tests, ere, true, &mut steps)?,
        None => tests,
    };
    match drop {
        Some(ere) => chosen(alloc, tests, ere, false, &mut steps),
        None => Ok(tests),
    }
}

/// The tests that the first expression keeps and the second doesn't drop, in their order.
pub fn select(
    alloc: Global,
    tests: Items<Test>,
    keep: &Option<Ere>,
    drop: &Option<Ere>,
) -> Result<Items<Test>, NoMemory>
    ensures { IfOk result (λ kept. kept ≡ selected (option_map view keep.now) (option_map view drop.now) tests) }
{
    select_by::<Brand>(alloc, tests, keep, drop, Blank::new(1))
}
