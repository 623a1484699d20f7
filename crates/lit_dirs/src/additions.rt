//! What a suite and its parts add to a test.
ghost use Rattle.std.specs.Prelude.{◌≡◌, ◌++◌, IfOk, OnOk, map};
ghost use Rattle.std.specs.List.{list_any};
ghost use Rattle.lit_dirs.specs.Tests.{features_of, holds_path, substitutions_of, tool_of};

use lit_paths::{is_above, joined, read_path, text_of};
use lit_suite::{Part, Suite};
use std::alloc::Global;
use tt_base::{Bytes, Items, NoMemory};
use tt_outside::{Pair, SharedItems, Test, same_pairs, same_texts};

/// Adds copies of texts.
pub(crate) fn add_texts(
    alloc: Global,
    texts: &mut Items<Bytes>,
    more: &[Bytes],
) -> Result<(), NoMemory>
    ensures { OnOk result (texts.new ≡ texts.old ++ more.now) }
{
    for text in more {
        texts.push(Bytes::from_slice(alloc, text.as_slice())?)?;
    }
    Ok(())
}

/// Adds copies of pairs.
pub(crate) fn add_pairs(
    alloc: Global,
    pairs: &mut Items<Pair>,
    more: &[Pair],
) -> Result<(), NoMemory>
    ensures { OnOk result (pairs.new ≡ pairs.old ++ more.now) }
{
    for pair in more {
        pairs.push(pair.copy(alloc)?)?;
    }
    Ok(())
}

/// Whether a part's directory lies above a path.
fn holds_path(alloc: Global, part: &Part, below: &[Bytes]) -> Result<bool, NoMemory>
    ensures { IfOk result (λ holds. holds ≡ holds_path below.now part.now) }
{
    let dir = read_path(alloc, part.path.as_slice())?;
    Ok(is_above(dir.as_slice(), below))
}

/// Whether the directory of one of these parts lies above a path.
fn is_held(alloc: Global, parts: &[Part], below: &[Bytes]) -> Result<bool, NoMemory>
    ensures { IfOk result (λ held. held ≡ list_any (holds_path below.now) parts.now) }
{
    for part in parts {
        if holds_path(alloc, part, below)? {
            return Ok(true);
        }
    }
    Ok(false)
}

/// The features of a suite, and behind them those of each part that holds a path.
fn added_features(alloc: Global, suite: &Suite, below: &[Bytes]) -> Result<Items<Bytes>, NoMemory>
    ensures { IfOk result (λ features. features ≡ features_of suite.now below.now) }
{
    let mut features = Items::new(alloc);
    add_texts(alloc, &mut features, suite.features.as_slice())?;
    for part in suite.parts.as_slice() {
        if holds_path(alloc, part, below)? {
            add_texts(alloc, &mut features, part.features.as_slice())?;
        }
    }
    Ok(features)
}

/// The features of a test: its suite's, and behind them those of each part that holds it. They stand once where they are
/// its suite's alone, or those of the test before it.
#[tactic(auto, using(crate::proofs::MadeLemmas::own_features))]
pub(crate) fn features_of(
    alloc: Global,
    suite: &Suite,
    below: &[Bytes],
    last: Option<&Test>,
) -> Result<SharedItems<Bytes>, NoMemory>
    ensures { IfOk result (λ features. features ≡ features_of suite.now below.now) }
{
    if !is_held(alloc, suite.parts.as_slice(), below)? {
        return suite.features.share();
    }
    let made = added_features(alloc, suite, below)?;
    match last {
        Some(test) if same_texts(test.features.as_slice(), made.as_slice()) => test
            .features
            .share(),
        _ => SharedItems::new(alloc, made),
    }
}

/// The replacements of each part that holds a path, and behind them those of a suite.
fn added_pairs(alloc: Global, suite: &Suite, below: &[Bytes]) -> Result<Items<Pair>, NoMemory>
    ensures { IfOk result (λ pairs. pairs ≡ substitutions_of suite.now below.now) }
{
    let mut pairs = Items::new(alloc);
    for part in suite.parts.as_slice() {
        if holds_path(alloc, part, below)? {
            add_pairs(alloc, &mut pairs, part.substitutions.as_slice())?;
        }
    }
    add_pairs(alloc, &mut pairs, suite.substitutions.as_slice())?;
    Ok(pairs)
}

/// The replacements of a test: those of each part that holds it, and behind them its suite's. They stand once where they
/// are its suite's alone, or those of the test before it.
#[tactic(auto, using(crate::proofs::MadeLemmas::own_substitutions))]
pub(crate) fn substitutions_of(
    alloc: Global,
    suite: &Suite,
    below: &[Bytes],
    last: Option<&Test>,
) -> Result<SharedItems<Pair>, NoMemory>
    ensures { IfOk result (λ pairs. pairs ≡ substitutions_of suite.now below.now) }
{
    if !is_held(alloc, suite.parts.as_slice(), below)? {
        return suite.substitutions.share();
    }
    let made = added_pairs(alloc, suite, below)?;
    match last {
        Some(test) if same_pairs(test.substitutions.as_slice(), made.as_slice()) => test
            .substitutions
            .share(),
        _ => SharedItems::new(alloc, made),
    }
}

/// A program's path, joined to the suite's directory.
fn tool_of(alloc: Global, root: &[Bytes], tool: &Pair) -> Result<Pair, NoMemory>
    ensures { IfOk result (λ made. made ≡ tool_of root.now tool.now) }
{
    let path = joined(alloc, root, tool.value.as_slice())?;
    Ok(Pair {
        name: Bytes::from_slice(alloc, tool.name.as_slice())?,
        value: text_of(alloc, path.as_slice())?,
    })
}

/// The paths of programs, for all tests of a suite.
pub fn tools_of(
    alloc: Global,
    root: &[Bytes],
    tools: &[Pair],
) -> Result<SharedItems<Pair>, NoMemory>
    ensures { IfOk result (λ made. made ≡ map (tool_of root.now) tools.now) }
{
    let mut made = Items::new(alloc);
    for tool in tools {
        made.push(tool_of(alloc, root, tool)?)?;
    }
    SharedItems::new(alloc, made)
}
