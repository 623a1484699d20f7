//! What is refused of the words.
ghost use Rattle.std.specs.Prelude.{◌≡◌, ◌<◌, Err, length};
ghost use Rattle.opt_words.specs.Fault.{word_of};
ghost use Rattle.opt_words.specs.Step.{texts};
ghost use Rattle.lit_words.specs.Fault.{Gives, faulty};
ghost use Rattle.lit_words.specs.declared.fault.LitWordsFail.TheVariants.{Bad};

use opt_words::WordFault;
use std::alloc::Global;
use tt_base::{Bytes, NoMemory};

/// Why words aren't accepted, in the order in which it is told.
#[derive(Drop, Debug)]
pub enum LitWordsFault {
    /// `--nope`, or an option without its value: what is wrong, and the word that names the option.
    Faulty(WordFault, Bytes),
    /// No plain word.
    NoPath,
    /// `-j 2 --workers=2`; `--json` beside `-q`, `-a`, `-v` or `--show-tests`; one of `--num-shards` and `--run-shard` without the other; `--num-shards=2 --run-shard=3`.
    Misfit,
    /// `--select 'a('`: no regular expression.
    BadRegex(Bytes),
}

/// Why a step gave no value.
#[derive(Drop, Debug)]
pub enum LitWordsFail {
    Bad(LitWordsFault),
    NoMemory,
}

impl From<NoMemory> for LitWordsFail {
    ghost use Rattle.std.specs.Prelude.{◌≡◌};
    ghost use Rattle.lit_words.specs.declared.fault.LitWordsFail.TheVariants.{NoMemory};

    ghost from_gives = { λ _ fail. fail ≡ NoMemory };

    fn from(_: NoMemory) -> LitWordsFail {
        LitWordsFail::NoMemory
    }
}

/// A step that refuses.
pub(crate) fn refuse<T>(fault: LitWordsFault) -> Result<T, LitWordsFail>
    ensures { result ≡ Err (Bad fault) }
{
    Err(LitWordsFail::Bad(fault))
}

/// The refusal of a word by its table.
pub(crate) fn refuse_word<T>(
    alloc: Global,
    words: &[String],
    fault: WordFault,
) -> Result<T, LitWordsFail>
    requires { word_of fault < length words.now }
    ensures { Gives (λ value. value) result (Err (faulty (texts words.now) fault)) }
{
    let word = Bytes::from_slice(alloc, fault.word(words))?;
    refuse(LitWordsFault::Faulty(fault, word))
}
