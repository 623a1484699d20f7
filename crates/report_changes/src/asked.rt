//! What the words of `lit_changes` ask.
ghost use Rattle.std.specs.Prelude.{◌≡◌, IfErr, IfOk, length};
ghost use Rattle.opt_words.specs.Step.{texts};
ghost use Rattle.report_changes.specs.Asked.{AreWithin, IsTold, asked};

use opt_words::{Table, WordFault};
use std::alloc::Global;
use tt_base::NoMemory;

/// The words that name the two reports, by their indices.
#[derive(Clone, Copy, Debug, PartialEq, Eq)]
pub struct Reports {
    pub old: usize,
    pub new: usize,
}

/// Why the words are refused.
#[derive(Clone, Copy, Debug, PartialEq, Eq)]
pub enum ChangesRefusal {
    /// A word that isn't a plain one, as `--nope`.
    FaultyWord(WordFault),
    /// Not two plain words.
    NotTwoReports,
}

/// The reports that the words ask for.
pub(crate) fn asked(
    alloc: Global,
    words: &[String],
) -> Result<Result<Reports, ChangesRefusal>, NoMemory>
    ensures value { IfOk result (λ found. found ≡ asked (texts words.now)) }
    ensures within { IfOk result (λ found. IfOk found (AreWithin (length words.now))) }
    ensures told { IfOk result (λ found. IfErr found (IsTold (length words.now))) }
{
    let table = Table {
        rows: [],
        stop_at_plain: false,
    };
    if let Err(fault) = table.read(words) {
        return Ok(Err(ChangesRefusal::FaultyWord(fault)));
    }
    let all = table.givens(alloc, words)?;
    match all.as_slice() {
        [old, new] => Ok(Ok(Reports {
            old: old.word,
            new: new.word,
        })),
        _ => Ok(Err(ChangesRefusal::NotTwoReports)),
    }
}
