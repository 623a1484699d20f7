//! What the words ask for, where a check file is to be made.
ghost use Rattle.std.specs.Prelude.{◌≡◌, IfOk, IfSome};
ghost use Rattle.std.specs.List.{list_all};
ghost use Rattle.opt_words.specs.Reading.{IsTally};
ghost use Rattle.opt_words.specs.Step.{Stands, texts};
ghost use Rattle.filecheck_words.specs.Fault.{Gives};
ghost use Rattle.filecheck_words.specs.Given.{IsRead};
ghost use Rattle.filecheck_words.specs.Making.{HasTextNames, IsText, fits, goes_with, is_making, lead_of, make_asked, old_of};

use crate::checking::{ALLOW_EMPTY, INPUT_FILE, Input, file_name, input_of, is_given};
use crate::fault::{WordsFail, WordsFault, refuse};
use crate::given::GivenWords;
use opt_words::Given;
use std::alloc::Global;
use tt_base::{Bytes, NoMemory};

/// What the words ask for, where a check file is to be made.
#[derive(Drop, Debug)]
pub struct Making {
    /// The name of the check file that is refreshed, as it was given.
    pub old: Option<Bytes>,
    /// What stands before each directive.
    pub lead: Bytes,
    pub input: Input,
    /// Whether the input may be empty.
    pub allow_empty: bool,
}

/// The row of each option that is looked at.
const MAKE_CHECKS: usize = 16;

const MAKE_LEAD: usize = 17;

const REFRESH: usize = 18;

/// Whether an option says what is made.
pub(crate) fn is_making(given: &GivenWords) -> bool
    requires { IsTally 19 given.now.all given.now.settings }
    ensures { result ≡ is_making given.now.all }
{
    is_given(given, MAKE_CHECKS) || is_given(given, MAKE_LEAD) || is_given(given, REFRESH)
}

/// Whether an option goes with a check file that is made.
fn goes_with(given: &Given) -> bool
    ensures { result ≡ goes_with given.now }
{
    given.row == INPUT_FILE
        || given.row == ALLOW_EMPTY
        || MAKE_CHECKS <= given.row && given.row < 19
}

fn all_go_with(all: &[Given]) -> bool
    ensures { result ≡ list_all goes_with all.now }
{
    all.iter().all(|given| goes_with(given))
}

/// Whether what is given fits together.
fn fits(given: &GivenWords) -> bool
    requires { IsTally 19 given.now.all given.now.settings }
    ensures { result ≡ fits given.now.all }
{
    let refreshes = is_given(given, REFRESH);
    let is_one = if is_given(given, MAKE_CHECKS) {
        !refreshes
    } else {
        refreshes
    };
    is_one && all_go_with(given.all.as_slice())
}

/// The check file that is refreshed, by what is given last of its option.
fn old_of(alloc: Global, words: &[String], last: Option<Given>) -> Result<Option<Bytes>, WordsFail>
    requires { IfSome last (Stands (texts words.now)) }
    ensures value { Gives (λ old. old) result (old_of (texts words.now) last) }
    ensures text { IfOk result IsText }
{
    match last {
        Some(given) => Ok(Some(file_name(alloc, given.value(words))?)),
        None => Ok(None),
    }
}

/// What stands before each directive, by what is given last of its option.
fn lead_of(alloc: Global, words: &[String], last: Option<Given>) -> Result<Bytes, NoMemory>
    requires { IfSome last (Stands (texts words.now)) }
    ensures { IfOk result (λ lead. lead ≡ lead_of (texts words.now) last) }
{
    match last {
        Some(given) => Bytes::from_slice(alloc, given.value(words)),
        None => Ok(Bytes::new(alloc)),
    }
}

/// What is asked for by what the words give.
pub(crate) fn make_asked(
    alloc: Global,
    words: &[String],
    given: &GivenWords,
) -> Result<Making, WordsFail>
    requires { IsRead (texts words.now) given.now }
    ensures value { Gives (λ making. making) result (make_asked (texts words.now) given.now.all) }
    ensures names { IfOk result HasTextNames }
{
    if !fits(given) {
        return refuse(WordsFault::Misfit);
    }
    let old = old_of(alloc, words, given.settings.last[REFRESH])?;
    let input = input_of(alloc, words, given.settings.last[INPUT_FILE])?;
    let lead = lead_of(alloc, words, given.settings.last[MAKE_LEAD])?;
    Ok(Making {
        old,
        lead,
        input,
        allow_empty: is_given(given, ALLOW_EMPTY),
    })
}
