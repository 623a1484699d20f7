//! The paths of tests.
ghost use Rattle.std.specs.Prelude.{◌≡◌, ◌<◌, ◌++◌, All, IfOk, OnOk, length};
ghost use Rattle.opt_words.specs.Step.{Stands, texts};
ghost use Rattle.lit_words.specs.Fault.{Gives};
ghost use Rattle.lit_words.specs.Paths.{path_of, paths_of, some_paths};

use crate::fault::{LitWordsFail, LitWordsFault, refuse};
use opt_words::Given;
use std::alloc::Global;
use tt_base::{Bytes, Items, NoMemory};

/// The row of plain words.
const PLAIN: usize = 11;

/// The plain words, in order.
fn paths_of(alloc: Global, words: &[String], all: &[Given]) -> Result<Items<Bytes>, NoMemory>
    requires { All (Stands (texts words.now)) all.now }
    ensures { IfOk result (λ paths. paths ≡ paths_of (texts words.now) all.now) }
{
    let mut paths = Items::new(alloc);
    for given in all {
        add_path(alloc, &mut paths, words, given)?;
    }
    Ok(paths)
}

fn add_path(
    alloc: Global,
    paths: &mut Items<Bytes>,
    words: &[String],
    given: &Given,
) -> Result<(), NoMemory>
    requires { Stands (texts words.now) given.now }
    ensures { OnOk result (paths.new ≡ paths.old ++ path_of (texts words.now) given.now) }
{
    if given.row == PLAIN {
        return paths.push(Bytes::from_slice(alloc, given.value(words))?);
    }
    Ok(())
}

/// The plain words, in order, of which there is one at least.
pub(crate) fn some_paths(
    alloc: Global,
    words: &[String],
    all: &[Given],
) -> Result<Items<Bytes>, LitWordsFail>
    requires { All (Stands (texts words.now)) all.now }
    ensures value { Gives (λ paths. paths) result (some_paths (paths_of (texts words.now) all.now)) }
    ensures some { IfOk result (λ paths. 0 < length paths) }
{
    let paths = paths_of(alloc, words, all)?;
    if paths.is_empty() {
        return refuse(LitWordsFault::NoPath);
    }
    Ok(paths)
}
