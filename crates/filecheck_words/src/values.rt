//! The values of options that may be given again.
ghost use Rattle.std.specs.Prelude.{◌≡◌, ◌++◌, All, IfOk, OnOk};
ghost use Rattle.opt_words.specs.Step.{Stands, texts};
ghost use Rattle.filecheck_words.specs.Values.{value_at, values};

use opt_words::Given;
use std::alloc::Global;
use tt_base::{Bytes, Items, NoMemory};

/// The values of a row, in the order of the words.
pub(crate) fn values(
    alloc: Global,
    words: &[String],
    all: &[Given],
    row: usize,
) -> Result<Items<Bytes>, NoMemory>
    requires { All (Stands (texts words.now)) all.now }
    ensures { IfOk result (λ found. found ≡ values row (texts words.now) all.now) }
{
    let mut found = Items::new(alloc);
    for given in all {
        add_value(alloc, &mut found, words, given, row)?;
    }
    Ok(found)
}

fn add_value(
    alloc: Global,
    found: &mut Items<Bytes>,
    words: &[String],
    given: &Given,
    row: usize,
) -> Result<(), NoMemory>
    requires { Stands (texts words.now) given.now }
    ensures { OnOk result (found.new ≡ found.old ++ value_at row (texts words.now) given.now) }
{
    if given.row == row {
        return found.push(Bytes::from_slice(alloc, given.value(words))?);
    }
    Ok(())
}
