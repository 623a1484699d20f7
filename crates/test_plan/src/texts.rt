//! The replacements in a test's RUN lines.
ghost use Rattle.std.specs.Prelude.{◌≡◌, IfOk};
ghost use Rattle.test_plan.specs.RunLines.{pairs_of};

use std::alloc::Global;
use substs::Texts;
use tt_base::{Bytes, NoMemory};
use tt_outside::{Pair, Test, pairs};

/// A name with its value.
fn pair(alloc: Global, name: &[u8], value: &Bytes) -> Result<Pair, NoMemory>
    ensures { IfOk result (λ made. made ≡ record { name = name.now; value = value.now }) }
{
    Ok(Pair {
        name: Bytes::from_slice(alloc, name)?,
        value: Bytes::from_slice(alloc, value.as_slice())?,
    })
}

/// A test's replacements: its suite's, and its own.
pub(crate) fn texts_of(alloc: Global, test: &Test) -> Result<Texts, NoMemory>
    ensures { IfOk result (λ texts. texts.pairs ≡ pairs_of test.now) }
{
    let mut all = pairs(alloc, test.substitutions.as_slice())?;
    all.push(pair(alloc, b"%s", &test.path)?)?;
    all.push(pair(alloc, b"%S", &test.source_dir)?)?;
    all.push(pair(alloc, b"%p", &test.source_dir)?)?;
    all.push(pair(alloc, b"%t", &test.temp)?)?;
    all.push(pair(alloc, b"%T", &test.temp_dir)?)?;
    Ok(Texts { pairs: all })
}
