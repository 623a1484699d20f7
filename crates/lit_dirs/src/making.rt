//! A test from its path and its suite.
ghost use Rattle.std.specs.Prelude.{◌≡◌, ◌≢◌, ◌++◌, [], IfOk, codes, map};
ghost use Rattle.lit_paths.specs.Paths.{Parts, cut, inner_text_of, slashed, text_of};
ghost use Rattle.lit_suite.specs.Whole.{IsWhole};
ghost use Rattle.lit_dirs.specs.Tests.{GivesName, GivesOf, GivesTest, GivesWorkDir, temp_of, temps_in, tool_of};

use crate::additions::{features_of, substitutions_of};
use lit_paths::{add_slashed, behind_path, chained, cut, cut_name, joined};
use lit_suite::Suite;
use std::alloc::Global;
use tt_base::{Bytes, Items, NoMemory};
use tt_outside::{Pair, SharedItems, Test};

/// The text of a path whose parts are written so, each behind a slash.
fn whole_text(alloc: Global, text: Bytes) -> Result<Bytes, NoMemory>
    ensures { (path : Parts) → text ≡ slashed path → IfOk result (λ whole. whole ≡ text_of path) }
{
    if text.is_empty() {
        return Bytes::from_slice(alloc, b"/".as_slice());
    }
    Ok(text)
}

/// The path of the directory in which the commands of a test run, each part behind a slash. `dir` is that of the test
/// file.
fn work_dir_of(alloc: Global, root: &[Bytes], suite: &Suite, dir: &[u8]) -> Result<Bytes, NoMemory>
    ensures { GivesWorkDir root.now suite.now dir.now result }
{
    match &suite.exec_root {
        Some(path) => {
            let top = joined(alloc, root, path.as_slice())?;
            let mut text = Bytes::new(alloc);
            add_slashed(&mut text, top.as_slice())?;
            text.append(behind_path(root, dir))?;
            Ok(text)
        }
        None => Bytes::from_slice(alloc, dir),
    }
}

/// A path below a directory, from its parts each behind a slash.
fn inner_text(text: &[u8]) -> &[u8]
    ensures { (below : Parts) → text.now ≡ slashed below → result.now ≡ inner_text_of below }
{
    match text.split_first() {
        Some((_, inner)) => inner,
        None => text,
    }
}

/// The name of a test: its suite's, and its path below the root.
fn full_name(alloc: Global, suite: &[u8], inner: &[u8]) -> Result<Bytes, NoMemory>
    ensures { IfOk result (λ name. name ≡ suite.now ++ codes " :: " ++ inner.now) }
{
    chained(alloc, &[suite, b" :: ", inner])
}

/// The directory of temporary files, in that of the commands.
#[tactic(auto, using(crate::proofs::MadeLemmas::temp_dir_text))]
fn temp_dir_of(alloc: Global, work: &[u8]) -> Result<Bytes, NoMemory>
    ensures { GivesOf work.now (λ dir. text_of (temps_in dir)) result }
{
    chained(alloc, &[work, b"/Output"])
}

/// How the paths of temporary files begin.
#[tactic(auto, using(crate::proofs::MadeLemmas::temp_text))]
fn temp_of(alloc: Global, work: &[u8], name: &[u8]) -> Result<Bytes, NoMemory>
    ensures { GivesOf work.now (λ dir. temp_of dir name.now) result }
{
    chained(alloc, &[work, b"/Output/", name, b".tmp"])
}

/// The parts of a path below the directory of a suite, if the suite has parts that may hold it.
fn parts_below(alloc: Global, suite: &Suite, inner: &[u8]) -> Result<Items<Bytes>, NoMemory>
    ensures { IfOk result (λ below. suite.now.parts ≢ [] → below ≡ cut inner.now) }
{
    if suite.parts.is_empty() {
        return Ok(Items::new(alloc));
    }
    cut(alloc, inner)
}

/// The name of the test of a file below the directory of its suite.
pub fn name_of(alloc: Global, root: &[Bytes], suite: &Suite, path: &[u8]) -> Result<Bytes, NoMemory>
    ensures { GivesName root.now suite.now path.now result }
{
    let inner = inner_text(behind_path(root, path));
    full_name(alloc, suite.name.as_slice(), inner)
}

/// The test of a file below the directory of its suite. `tools` are the paths of the suite's programs; `last` is the test
/// that was made before it, if there is one, with which it shares lists that are equal.
#[tactic(auto, using(crate::proofs::NamedLemmas::replacements_are_named))]
pub fn test_of(
    alloc: Global,
    root: &[Bytes],
    suite: &Suite,
    tools: &SharedItems<Pair>,
    path: Bytes,
    last: Option<&Test>,
) -> Result<Test, NoMemory>
    requires whole { IsWhole suite.now }
    requires tools { tools.now ≡ map (tool_of root.now) suite.now.tools }
    ensures { GivesTest root.now suite.now path result }
{
    let inner = inner_text(behind_path(root, path.as_slice()));
    let below = parts_below(alloc, suite, inner)?;
    let (dir, name) = cut_name(path.as_slice());
    let work = work_dir_of(alloc, root, suite, dir)?;
    Ok(Test {
        name: full_name(alloc, suite.name.as_slice(), inner)?,
        source_dir: whole_text(alloc, Bytes::from_slice(alloc, dir)?)?,
        temp_dir: temp_dir_of(alloc, work.as_slice())?,
        temp: temp_of(alloc, work.as_slice(), name)?,
        work_dir: whole_text(alloc, work)?,
        features: features_of(alloc, suite, below.as_slice(), last)?,
        substitutions: substitutions_of(alloc, suite, below.as_slice(), last)?,
        tools: tools.share()?,
        environment: suite.environment.share()?,
        path,
    })
}
