//! The options, and what the words give.
ghost use Rattle.std.specs.Prelude.{◌≡◌, ◌<◌, false, All, IfOk, length};
ghost use Rattle.opt_words.specs.Step.{texts};
ghost use Rattle.filecheck_words.specs.Fault.{Gives};
ghost use Rattle.filecheck_words.specs.Given.{IsRead, given_by, named_at, rows};

use crate::fault::{WordsFail, WordsFault, refuse};
use opt_words::{Form, Given, Name, Row, Settings, Table};
use std::alloc::Global;
use tt_base::{Bytes, Items};

/// The words, read by the table.
#[derive(Drop, Debug)]
pub(crate) struct GivenWords {
    pub(crate) settings: Settings<19>,
    /// All that they give, in order.
    pub(crate) all: Items<Given>,
}

/// A table of options from names and forms.
macro_rules! rows {
    ($($name:literal $form:expr),*) => {
        [$(Row {
            name: Name::of($name),
            form: $form,
        }),*]
    };
}

/// The options, in the order of docs/PROFILE.md.
fn table() -> Table<19>
    ensures rows { result.rows ≡ rows }
    ensures all { result.stop_at_plain ≡ false }
{
    Table {
        rows: rows!(
            "check-prefix" Form::Many,
            "check-prefixes" Form::Many,
            "comment-prefixes" Form::Many,
            "input-file" Form::Once,
            "strict-whitespace" Form::Flag,
            "allow-empty" Form::Flag,
            "allow-unused-prefixes" Form::Switch,
            "enable-var-scope" Form::Flag,
            "D" Form::Glued,
            "dump-input" Form::Once,
            "generate" Form::Number { least: 1, most: 20_000 },
            "match-full-lines" Form::Flag,
            "ignore-case" Form::Flag,
            "implicit-check-not" Form::Many,
            "dump-input-context" Form::Number { least: 0, most: 1_000_000 },
            "dump-input-filter" Form::Once,
            "make-checks" Form::Flag,
            "make-lead" Form::Once,
            "refresh" Form::Once
        ),
        stop_at_plain: false,
    }
}

/// What the words give.
pub(crate) fn given_by(alloc: Global, words: &[String]) -> Result<GivenWords, WordsFail>
    ensures value { Gives (λ given. given.all) result (given_by (texts words.now)) }
    ensures read { IfOk result (IsRead (texts words.now)) }
{
    let table = table();
    let settings = match table.read(words) {
        Ok(settings) => settings,
        Err(fault) => {
            let word = Bytes::from_slice(alloc, fault.word(words))?;
            return refuse(WordsFault::Faulty(fault, word));
        }
    };
    let all = table.givens(alloc, words)?;
    Ok(GivenWords { settings, all })
}

/// The word that names the option of a value, by its index.
pub(crate) fn named_at(given: Given) -> usize
    ensures { result ≡ named_at given }
{
    if given.at == 0 {
        given.word.saturating_sub(1)
    } else {
        given.word
    }
}
