//! What is refused of the words.
ghost use Rattle.std.specs.Prelude.{◌≡◌, Err};
ghost use Rattle.filecheck_words.specs.declared.fault.WordsFail.TheVariants.{Bad};

use opt_words::WordFault;
use tt_base::{Bytes, NoMemory};

/// Why words aren't accepted, in the order in which it is told.
#[derive(Drop, Debug)]
pub enum WordsFault {
    /// The name of a file isn't text.
    NotText,
    /// `--nope`, or an option without its value: what is wrong, and the word that names the option.
    Faulty(WordFault, Bytes),
    /// `--generate=3` or `--make-checks` with a word that doesn't go with it.
    Misfit,
    /// No plain word, or more than one.
    NotOneFile,
    /// `--check-prefix=1A`: not a letter, and then letters, digits, `-` and `_`.
    BadPrefix(Bytes),
    /// `--check-prefixes=A,A`: an equal one holds before it.
    PrefixTwice(Bytes),
    /// `--implicit-check-not=`: no text, or more than a line.
    BadImplicit(Bytes),
}

/// Why a step gave no value.
#[derive(Drop, Debug)]
pub enum WordsFail {
    Bad(WordsFault),
    NoMemory,
}

impl From<NoMemory> for WordsFail {
    ghost use Rattle.std.specs.Prelude.{◌≡◌};
    ghost use Rattle.filecheck_words.specs.declared.fault.WordsFail.TheVariants.{NoMemory};

    ghost from_gives = { λ _ fail. fail ≡ NoMemory };

    fn from(_: NoMemory) -> WordsFail {
        WordsFail::NoMemory
    }
}

/// A step that refuses.
pub(crate) fn refuse<T>(fault: WordsFault) -> Result<T, WordsFail>
    ensures { result ≡ Err (Bad fault) }
{
    Err(WordsFail::Bad(fault))
}
