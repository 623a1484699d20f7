//! What the words of the command line ask for.
ghost use Rattle.std.specs.Prelude.{◌≡◌, IfOk};
ghost use Rattle.opt_words.specs.Reading.{IsTally};
ghost use Rattle.opt_words.specs.Step.{texts};
ghost use Rattle.lit_words.specs.Asked.{IsSound, asked_by, detail_of, is_text_asked, text_detail_of, wanted, wanted_by};
ghost use Rattle.lit_words.specs.Fault.{Gives};
ghost use Rattle.lit_words.specs.Given.{IsRead};

use crate::expression::expression_of;
use crate::fault::{LitWordsFail, LitWordsFault, refuse};
use crate::given::{GivenWords, given_by};
use crate::number::{Shard, shard_of, workers_of};
use crate::paths::some_paths;
use ere_tree::Ere;
use std::alloc::Global;
use tt_base::{Bytes, Items};

/// What is shown of the tests.
#[derive(Clone, Copy, Debug, PartialEq, Eq)]
pub enum Detail {
    /// `-q`: the results of failures alone.
    Quiet,
    /// `-a`: each result, and each transcript.
    Whole,
    /// `-v`: each result, and the transcripts of failures.
    Verbose,
    /// Each result.
    Plain,
    /// `--json`: each result, as JSON.
    Json,
}

/// What the words ask for.
#[derive(Drop, Debug)]
pub struct LitAsked {
    /// The paths of tests and of directories of tests, as they were given.
    pub paths: Items<Bytes>,
    /// Whether the names of the tests are shown, and none is run.
    pub show: bool,
    pub detail: Detail,
    /// How many tests run side by side.
    pub workers: u64,
    /// What is found in the names of the tests that are kept.
    pub select: Option<Ere>,
    /// What is found in the names of those that are then dropped.
    pub drop: Option<Ere>,
    /// Which of those are then run.
    pub shard: Option<Shard>,
}

/// The row of each option that is looked at.
const VERBOSE: usize = 0;

const ALL: usize = 1;

const QUIET: usize = 2;

const LETTER: usize = 3;

const WORKERS: usize = 4;

const SELECT: usize = 5;

const DROP: usize = 6;

const NUM_SHARDS: usize = 7;

const RUN_SHARD: usize = 8;

const SHOW_TESTS: usize = 9;

const JSON: usize = 10;

/// Whether an option is given that says what is shown of a text.
fn is_text_asked(given: &GivenWords) -> bool
    requires { IsTally 11 given.now.all given.now.settings }
    ensures { result ≡ is_text_asked given.now.all }
{
    given.has(VERBOSE) || given.has(ALL) || given.has(QUIET) || given.has(SHOW_TESTS)
}

/// What is shown.
fn detail_of(given: &GivenWords) -> Result<Detail, LitWordsFail>
    requires { IsTally 11 given.now.all given.now.settings }
    ensures { Gives (λ detail. detail) result (detail_of given.now.all) }
{
    if !given.has(JSON) {
        return Ok(text_detail_of(given));
    }
    if is_text_asked(given) {
        return refuse(LitWordsFault::Misfit);
    }
    Ok(Detail::Json)
}

/// What is shown in a text: of several, `-q` counts before `-a`, and `-a` before `-v`.
fn text_detail_of(given: &GivenWords) -> Detail
    requires { IsTally 11 given.now.all given.now.settings }
    ensures { result ≡ text_detail_of given.now.all }
{
    if given.has(QUIET) {
        Detail::Quiet
    } else if given.has(ALL) {
        Detail::Whole
    } else if given.has(VERBOSE) {
        Detail::Verbose
    } else {
        Detail::Plain
    }
}

/// What is asked for by what the words give.
fn wanted_by(alloc: Global, words: &[String], given: &GivenWords) -> Result<LitAsked, LitWordsFail>
    requires { IsRead (texts words.now) given.now }
    ensures value { Gives wanted result (wanted_by (texts words.now) given.now.all) }
    ensures sound { IfOk result IsSound }
{
    let last = given.settings.last;
    let paths = some_paths(alloc, words, given.all.as_slice())?;
    let detail = detail_of(given)?;
    let workers = workers_of(alloc, words, last[LETTER], last[WORKERS])?;
    let shard = shard_of(alloc, words, last[NUM_SHARDS], last[RUN_SHARD])?;
    let select = expression_of(alloc, words, last[SELECT])?;
    let drop = expression_of(alloc, words, last[DROP])?;
    Ok(LitAsked {
        paths,
        show: given.has(SHOW_TESTS),
        detail,
        workers,
        select,
        drop,
        shard,
    })
}

/// What the words ask for, which are without the program's name.
pub fn asked_by(alloc: Global, words: &[String]) -> Result<LitAsked, LitWordsFail>
    ensures value { Gives wanted result (asked_by (texts words.now)) }
    ensures sound { IfOk result IsSound }
{
    let given = given_by(alloc, words)?;
    wanted_by(alloc, words, &given)
}
