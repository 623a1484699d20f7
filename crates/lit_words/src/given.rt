//! The options, and what the words give.
ghost use Rattle.std.specs.Prelude.{◌≡◌, ◌<◌, false, IfOk, IfSome, None, slice_index_or};
ghost use Rattle.opt_words.specs.Reading.{IsTally, last};
ghost use Rattle.opt_words.specs.Step.{Stands, texts};
ghost use Rattle.lit_words.specs.Fault.{Gives};
ghost use Rattle.lit_words.specs.Given.{IsRead, given_by, is_given, named_at, rows};

use crate::fault::{LitWordsFail, refuse_word};
use opt_words::{Form, Given, Name, Row, Settings, Table};
use std::alloc::Global;
use tt_base::Items;

/// The words, read by the table.
#[derive(Drop, Debug)]
pub(crate) struct GivenWords {
    pub(crate) settings: Settings<11>,
    /// All that they give, in order.
    pub(crate) all: Items<Given>,
}

/// A table of options from names and forms.
macro_rules! rows {
    ($($name:literal $form:expr),*) => {
        [$(Row {
            name: Name::of($name),
            form: $form,
        }),*]
    };
}

/// The options, in the order of docs/PROFILE.md.
fn table() -> Table<11>
    ensures rows { result.rows ≡ rows }
    ensures all { result.stop_at_plain ≡ false }
{
    Table {
        rows: rows!(
            "v" Form::Flag,
            "a" Form::Flag,
            "q" Form::Flag,
            "j" Form::Number { least: 1, most: 64 },
            "workers" Form::Number { least: 1, most: 64 },
            "select" Form::Once,
            "drop" Form::Once,
            "num-shards" Form::Number { least: 1, most: 20_000 },
            "run-shard" Form::Number { least: 1, most: 20_000 },
            "show-tests" Form::Flag,
            "json" Form::Flag
        ),
        stop_at_plain: false,
    }
}

/// What the words give.
pub(crate) fn given_by(alloc: Global, words: &[String]) -> Result<GivenWords, LitWordsFail>
    ensures value { Gives (λ given. given.all) result (given_by (texts words.now)) }
    ensures read { IfOk result (IsRead (texts words.now)) }
{
    let table = table();
    let settings = match table.read(words) {
        Ok(settings) => settings,
        Err(fault) => return refuse_word(alloc, words, fault),
    };
    let all = table.givens(alloc, words)?;
    Ok(GivenWords { settings, all })
}

/// The word that names the option of a value, by its index.
pub(crate) fn named_at(given: Given) -> usize
    ensures { result ≡ named_at given }
{
    if given.at == 0 {
        given.word.saturating_sub(1)
    } else {
        given.word
    }
}

impl GivenWords {
    /// Whether a row is given.
    pub(crate) fn has(&self, row: usize) -> bool
        requires row { row < 11 }
        requires tally { IsTally 11 self.now.all self.now.settings }
        ensures { result ≡ is_given row self.now.all }
    {
        self.settings.times[row] > 0
    }
}
