//! The annotated input that the words ask for.
ghost use Rattle.std.specs.Prelude.{◌≡◌, IfOk, IfSome};
ghost use Rattle.opt_words.specs.Number.{decimal};
ghost use Rattle.opt_words.specs.Step.{Stands, texts};
ghost use Rattle.filecheck_words.specs.Dump.{all_by, chosen, dump_asked, dump_fault, dump_of, earlier, is_always, unwanted, when_by};
ghost use Rattle.filecheck_words.specs.Given.{IsRead};
ghost use Rattle.filecheck_words.specs.declared.dumping.When.TheVariants.{Never};

use crate::fault::WordsFault;
use crate::given::{GivenWords, named_at};
use opt_words::{Given, WordFault, decimal};
use std::alloc::Global;
use tt_base::{Bytes, NoMemory};

/// When the annotated input is written.
#[derive(Clone, Copy, Debug, PartialEq, Eq)]
pub enum When {
    Never,
    /// Where a directive isn't met.
    Fail,
    Always,
}

/// Which annotated input is written, and when.
#[derive(Clone, Copy, Debug, PartialEq, Eq)]
pub struct Dump {
    pub when: When,
    /// Whether all of its lines are shown.
    pub all: bool,
    /// How many lines are shown on either side of one with a mark.
    pub context: u64,
}

/// The row of each option that is looked at.
pub(crate) const DUMP_INPUT: usize = 9;

const DUMP_CONTEXT: usize = 14;

pub(crate) const DUMP_FILTER: usize = 15;

/// When there is one, by the value of `--dump-input`.
fn when_by(value: &[u8]) -> Option<When>
    ensures { result ≡ when_by value.now }
{
    if value == b"never".as_slice() {
        Some(When::Never)
    } else if value == b"fail".as_slice() {
        Some(When::Fail)
    } else if value == b"always".as_slice() {
        Some(When::Always)
    } else {
        None
    }
}

/// Whether it has all lines, by the value of `--dump-input-filter`.
fn all_by(value: &[u8]) -> Option<bool>
    ensures { result ≡ all_by value.now }
{
    if value == b"all".as_slice() {
        Some(true)
    } else if value == b"error".as_slice() {
        Some(false)
    } else {
        None
    }
}

/// What is given of `--dump-input`, where that is no value of it.
fn bad_when(words: &[String], when: Option<Given>) -> Option<Given>
    requires { IfSome when (Stands (texts words.now)) }
    ensures { result ≡ unwanted when_by (texts words.now) when }
{
    match when {
        Some(given) => match when_by(given.value(words)) {
            Some(_) => None,
            None => Some(given),
        },
        None => None,
    }
}

/// What is given of `--dump-input-filter`, where that is no value of it.
fn bad_filter(words: &[String], filter: Option<Given>) -> Option<Given>
    requires { IfSome filter (Stands (texts words.now)) }
    ensures { result ≡ unwanted all_by (texts words.now) filter }
{
    match filter {
        Some(given) => match all_by(given.value(words)) {
            Some(_) => None,
            None => Some(given),
        },
        None => None,
    }
}

/// The one of two that stands first in the words.
fn earlier(one: Option<Given>, other: Option<Given>) -> Option<Given>
    ensures { result ≡ earlier one other }
{
    match one {
        Some(first) => match other {
            Some(second) => Some(if second.word < first.word {
                second
            } else {
                first
            }),
            None => Some(first),
        },
        None => other,
    }
}

/// What is wrong with the first value that is none, by what is given of `--dump-input` and its filter.
pub(crate) fn dump_fault(
    alloc: Global,
    words: &[String],
    when: Option<Given>,
    filter: Option<Given>,
) -> Result<Option<WordsFault>, NoMemory>
    requires when { IfSome when (Stands (texts words.now)) }
    requires filter { IfSome filter (Stands (texts words.now)) }
    ensures { IfOk result (λ fault. fault ≡ dump_fault (texts words.now) when filter) }
{
    match earlier(bad_when(words, when), bad_filter(words, filter)) {
        Some(given) => {
            let fault = WordFault::UnwantedValue(named_at(given));
            let word = Bytes::from_slice(alloc, fault.word(words))?;
            Ok(Some(WordsFault::Faulty(fault, word)))
        }
        None => Ok(None),
    }
}

fn when_of(words: &[String], when: Option<Given>) -> When
    requires { IfSome when (Stands (texts words.now)) }
    ensures { result ≡ chosen when_by Never (texts words.now) when }
{
    match when {
        Some(given) => match when_by(given.value(words)) {
            Some(when) => when,
            None => When::Never,
        },
        None => When::Never,
    }
}

fn all_of(words: &[String], filter: Option<Given>, default: bool) -> bool
    requires { IfSome filter (Stands (texts words.now)) }
    ensures { result ≡ chosen all_by default (texts words.now) filter }
{
    match filter {
        Some(given) => match all_by(given.value(words)) {
            Some(all) => all,
            None => default,
        },
        None => default,
    }
}

fn context_of(words: &[String], context: Option<Given>) -> u64
    requires { IfSome context (Stands (texts words.now)) }
    ensures { result ≡ chosen decimal 5 (texts words.now) context }
{
    match context {
        Some(given) => match decimal(given.value(words)) {
            Some(lines) => lines,
            None => 5,
        },
        None => 5,
    }
}

fn is_always(when: When) -> bool
    ensures { result ≡ is_always when }
{
    match when {
        When::Never | When::Fail => false,
        When::Always => true,
    }
}

/// What is asked for by what is given of `--dump-input`, its filter and its context.
fn dump_of(
    words: &[String],
    when: Option<Given>,
    filter: Option<Given>,
    context: Option<Given>,
) -> Dump
    requires when { IfSome when (Stands (texts words.now)) }
    requires filter { IfSome filter (Stands (texts words.now)) }
    requires context { IfSome context (Stands (texts words.now)) }
    ensures { result ≡ dump_of (texts words.now) when filter context }
{
    let when = when_of(words, when);
    Dump {
        when,
        all: all_of(words, filter, is_always(when)),
        context: context_of(words, context),
    }
}

/// What is asked for by what the words give.
pub(crate) fn dump_asked(words: &[String], given: &GivenWords) -> Dump
    requires { IsRead (texts words.now) given.now }
    ensures { result ≡ dump_asked (texts words.now) given.now.all }
{
    dump_of(
        words,
        given.settings.last[DUMP_INPUT],
        given.settings.last[DUMP_FILTER],
        given.settings.last[DUMP_CONTEXT],
    )
}
