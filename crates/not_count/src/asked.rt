//! What the words of `count` ask.
ghost use Rattle.std.specs.Prelude.{◌≡◌, IfErr, length};
ghost use Rattle.not_count.specs.Asked.{IsTold, asked};
ghost use Rattle.opt_words.specs.Step.{texts};

use opt_words::{Table, WordFault, decimal};

/// Why the words are refused.
#[derive(Clone, Copy, Debug, PartialEq, Eq)]
pub enum CountRefusal {
    /// A word that isn't a plain one, as `--nope`.
    FaultyWord(WordFault),
    /// Not one number, as `x`, or two words.
    NotOneNumber,
}

/// The number that the words ask for.
pub fn asked(words: &[String]) -> Result<u64, CountRefusal>
    ensures value { result ≡ asked (texts words.now) }
    ensures told { IfErr result (IsTold (length words.now)) }
{
    let table = Table {
        rows: [],
        stop_at_plain: false,
    };
    let settings = match table.read(words) {
        Ok(settings) => settings,
        Err(fault) => return Err(CountRefusal::FaultyWord(fault)),
    };
    match settings.first_plain {
        None => Err(CountRefusal::NotOneNumber),
        Some(given) => {
            if settings.plain != 1 {
                return Err(CountRefusal::NotOneNumber);
            }
            match decimal(given.value(words)) {
                Some(number) => Ok(number),
                None => Err(CountRefusal::NotOneNumber),
            }
        }
    }
}
