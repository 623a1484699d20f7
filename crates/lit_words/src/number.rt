//! The numbers that words give: of workers, and of shards.
ghost use Rattle.std.specs.Prelude.{◌≡◌, ◌≤◌, IfOk, IfSome};
ghost use Rattle.opt_words.specs.Step.{Stands, texts};
ghost use Rattle.lit_words.specs.Fault.{Gives};
ghost use Rattle.lit_words.specs.Number.{IsShard, as_shard, bad_number, number_of, shard_beside, shard_of, workers_of};

use crate::fault::{LitWordsFail, LitWordsFault, refuse, refuse_word};
use crate::given::named_at;
use opt_words::{Given, WordFault, decimal};
use std::alloc::Global;

/// A shard of a run.
#[derive(Clone, Copy, Debug, PartialEq, Eq)]
pub struct Shard {
    /// How many shards there are.
    pub shards: u64,
    /// Which one is run, counted from 1.
    pub run: u64,
}

/// The greatest number of workers.
const MAX_WORKERS: u64 = 64;

/// The greatest number of shards.
const MAX_SHARDS: u64 = 20_000;

/// The refusal of a number.
fn bad_number(alloc: Global, words: &[String], given: Given) -> Result<u64, LitWordsFail>
    requires { Stands (texts words.now) given }
    ensures { Gives (λ n. n) result (bad_number (texts words.now) given) }
{
    refuse_word(alloc, words, WordFault::BadNumber(named_at(given)))
}

/// The number that a value spells, from 1 to a greatest one.
fn number_of(alloc: Global, words: &[String], most: u64, given: Given) -> Result<u64, LitWordsFail>
    requires { Stands (texts words.now) given }
    ensures value { Gives (λ n. n) result (number_of (texts words.now) most given) }
    ensures least { IfOk result (λ n. 1 ≤ n) }
    ensures most { IfOk result (λ n. n ≤ most) }
{
    match decimal(given.value(words)) {
        Some(n) => {
            if 1 <= n && n <= most {
                return Ok(n);
            }
            bad_number(alloc, words, given)
        }
        None => bad_number(alloc, words, given),
    }
}

/// The number of workers, by what is given of `-j` and of `--workers`.
pub(crate) fn workers_of(
    alloc: Global,
    words: &[String],
    letter: Option<Given>,
    name: Option<Given>,
) -> Result<u64, LitWordsFail>
    requires letter { IfSome letter (Stands (texts words.now)) }
    requires name { IfSome name (Stands (texts words.now)) }
    ensures value { Gives (λ n. n) result (workers_of (texts words.now) letter name) }
    ensures least { IfOk result (λ n. 1 ≤ n) }
    ensures most { IfOk result (λ n. n ≤ 64) }
{
    match letter {
        Some(given) => match name {
            Some(_) => refuse(LitWordsFault::Misfit),
            None => number_of(alloc, words, MAX_WORKERS, given),
        },
        None => match name {
            Some(given) => number_of(alloc, words, MAX_WORKERS, given),
            None => Ok(1),
        },
    }
}

/// One of so many shards.
fn as_shard(shards: u64, run: u64) -> Result<Option<Shard>, LitWordsFail>
    requires { 1 ≤ run }
    ensures value { Gives (λ shard. shard) result (as_shard shards run) }
    ensures sound { IfOk result (λ shard. IfSome shard IsShard) }
{
    if run > shards {
        return refuse(LitWordsFault::Misfit);
    }
    Ok(Some(Shard { shards, run }))
}

/// The shard of two numbers.
fn shard_beside(
    alloc: Global,
    words: &[String],
    shards: Given,
    run: Given,
) -> Result<Option<Shard>, LitWordsFail>
    requires shards { Stands (texts words.now) shards }
    requires run { Stands (texts words.now) run }
    ensures value { Gives (λ shard. shard) result (shard_beside (texts words.now) shards run) }
    ensures sound { IfOk result (λ shard. IfSome shard IsShard) }
{
    let shards = number_of(alloc, words, MAX_SHARDS, shards)?;
    let run = number_of(alloc, words, MAX_SHARDS, run)?;
    as_shard(shards, run)
}

/// The shard that is run, by what is given of `--num-shards` and of `--run-shard`.
pub(crate) fn shard_of(
    alloc: Global,
    words: &[String],
    shards: Option<Given>,
    run: Option<Given>,
) -> Result<Option<Shard>, LitWordsFail>
    requires shards { IfSome shards (Stands (texts words.now)) }
    requires run { IfSome run (Stands (texts words.now)) }
    ensures value { Gives (λ shard. shard) result (shard_of (texts words.now) shards run) }
    ensures sound { IfOk result (λ shard. IfSome shard IsShard) }
{
    match shards {
        Some(shards) => match run {
            Some(run) => shard_beside(alloc, words, shards, run),
            None => refuse(LitWordsFault::Misfit),
        },
        None => match run {
            Some(_) => refuse(LitWordsFault::Misfit),
            None => Ok(None),
        },
    }
}
