//! What the words ask for, where a check file is to be checked.
ghost use Rattle.std.specs.Prelude.{◌≡◌, ◌<◌, true, IfOk, IfSome};
ghost use Rattle.std.specs.Str.{is_utf8};
ghost use Rattle.opt_words.specs.Reading.{IsTally};
ghost use Rattle.opt_words.specs.Step.{Stands, texts};
ghost use Rattle.filecheck_words.specs.Checking.{HasNames, IsNamed, checking, file_name, input_named, input_of, is_given, is_on, may_lack, one_file};
ghost use Rattle.filecheck_words.specs.Fault.{Gives};
ghost use Rattle.filecheck_words.specs.Given.{IsRead};

use crate::dumping::{Dump, dump_asked};
use crate::fault::{WordsFail, WordsFault, refuse};
use crate::given::GivenWords;
use crate::implicit::patterns_of;
use crate::prefixes::{ChosenPrefixes, held_prefixes};
use crate::values::values;
use opt_words::Given;
use std::alloc::Global;
use std::str::from_utf8;
use tt_base::{Bytes, Items, NoMemory};

/// Where the input is.
#[derive(Drop, Debug)]
pub enum Input {
    Standard,
    /// The file of this name.
    Named(Bytes),
}

/// What the words ask for, where a check file is to be checked.
#[derive(Drop, Debug)]
pub struct Asked {
    /// The name of the check file, as it was given.
    pub name: Bytes,
    pub input: Input,
    pub prefixes: ChosenPrefixes,
    /// Whether each blank counts.
    pub strict: bool,
    /// Whether the input may be empty.
    pub allow_empty: bool,
    /// Whether a check prefix may be used by no directive.
    pub allow_unused: bool,
    /// Whether a match takes all of its line.
    pub full_lines: bool,
    /// Whether letters match in either case.
    pub fold: bool,
    /// Whether most variables are forgotten where a block begins.
    pub var_scope: bool,
    /// Whether the check file may have no directive.
    pub may_lack: bool,
    /// The patterns of implicit directives, in the order of the words.
    pub implicit: Items<Bytes>,
    /// The values of `-D`, in the order of the words, as `X=text` and `#N=3`.
    pub defines: Items<Bytes>,
    pub dump: Dump,
}

/// The row of each option that is looked at.
const CHECK_PREFIX: usize = 0;

const CHECK_PREFIXES: usize = 1;

pub(crate) const INPUT_FILE: usize = 3;

const STRICT: usize = 4;

pub(crate) const ALLOW_EMPTY: usize = 5;

const ALLOW_UNUSED: usize = 6;

const VAR_SCOPE: usize = 7;

const DEFINE: usize = 8;

const FULL_LINES: usize = 11;

const IGNORE_CASE: usize = 12;

const IMPLICIT: usize = 13;

/// What is asked for by what the words give.
pub(crate) fn checking(
    alloc: Global,
    words: &[String],
    given: &GivenWords,
) -> Result<Asked, WordsFail>
    requires { IsRead (texts words.now) given.now }
    ensures value { Gives (λ asked. asked) result (checking (texts words.now) given.now.all) }
    ensures names { IfOk result HasNames }
{
    let all = given.all.as_slice();
    let name = one_file(
        alloc,
        words,
        given.settings.plain,
        given.settings.first_plain,
    )?;
    let input = input_of(alloc, words, given.settings.last[INPUT_FILE])?;
    let prefixes = held_prefixes(alloc, words, all)?;
    let strict = is_given(given, STRICT);
    let found = values(alloc, words, all, IMPLICIT)?;
    let implicit = patterns_of(alloc, found.as_slice(), strict)?;
    let defines = values(alloc, words, all, DEFINE)?;
    Ok(Asked {
        name,
        input,
        prefixes,
        strict,
        allow_empty: is_given(given, ALLOW_EMPTY),
        allow_unused: is_on(words, given.settings.last[ALLOW_UNUSED]),
        full_lines: is_given(given, FULL_LINES),
        fold: is_given(given, IGNORE_CASE),
        var_scope: is_given(given, VAR_SCOPE),
        may_lack: may_lack(given),
        implicit,
        defines,
        dump: dump_asked(words, given),
    })
}

/// Whether a row is given.
pub(crate) fn is_given(given: &GivenWords, row: usize) -> bool
    requires row { row < 19 }
    requires tally { IsTally 19 given.now.all given.now.settings }
    ensures { result ≡ is_given row given.now.all }
{
    given.settings.times[row] > 0
}

/// Whether the check file may have no directive.
fn may_lack(given: &GivenWords) -> bool
    requires { IsTally 19 given.now.all given.now.settings }
    ensures { result ≡ may_lack given.now.all }
{
    is_given(given, IMPLICIT) && !is_given(given, CHECK_PREFIX) && !is_given(given, CHECK_PREFIXES)
}

/// The check file, where there is one plain word.
fn one_file(
    alloc: Global,
    words: &[String],
    plain: usize,
    first: Option<Given>,
) -> Result<Bytes, WordsFail>
    requires { IfSome first (Stands (texts words.now)) }
    ensures value { Gives (λ name. name) result (one_file (texts words.now) plain first) }
    ensures text { IfOk result (λ name. is_utf8 name ≡ true) }
{
    match first {
        Some(given) => {
            if plain == 1 {
                file_name(alloc, given.value(words))
            } else {
                refuse(WordsFault::NotOneFile)
            }
        }
        None => refuse(WordsFault::NotOneFile),
    }
}

/// A value as the name of a file.
pub(crate) fn file_name(alloc: Global, value: &[u8]) -> Result<Bytes, WordsFail>
    ensures value { Gives (λ name. name) result (file_name value.now) }
    ensures text { IfOk result (λ name. is_utf8 name ≡ true) }
{
    if !is_text(value) {
        return refuse(WordsFault::NotText);
    }
    Ok(Bytes::from_slice(alloc, value)?)
}

/// Whether a value is text, as the words are that have them.
#[tactic(auto, using(crate::proofs::WordsLemmas::text_is, crate::proofs::WordsLemmas::no_text))]
fn is_text(value: &[u8]) -> bool
    ensures { result ≡ is_utf8 value.now }
{
    from_utf8(value).is_ok()
}

/// The input, by what is given last of its option.
pub(crate) fn input_of(
    alloc: Global,
    words: &[String],
    last: Option<Given>,
) -> Result<Input, WordsFail>
    requires { IfSome last (Stands (texts words.now)) }
    ensures value { Gives (λ input. input) result (input_of (texts words.now) last) }
    ensures named { IfOk result IsNamed }
{
    match last {
        Some(given) => input_named(alloc, given.value(words)),
        None => Ok(Input::Standard),
    }
}

fn input_named(alloc: Global, value: &[u8]) -> Result<Input, WordsFail>
    ensures value { Gives (λ input. input) result (input_named value.now) }
    ensures named { IfOk result IsNamed }
{
    if value == b"-".as_slice() {
        return Ok(Input::Standard);
    }
    Ok(Input::Named(file_name(alloc, value)?))
}

/// Whether a switch is on, by what is given last of it.
fn is_on(words: &[String], last: Option<Given>) -> bool
    requires { IfSome last (Stands (texts words.now)) }
    ensures { result ≡ is_on (texts words.now) last }
{
    match last {
        Some(given) => given.value(words) != b"false".as_slice(),
        None => false,
    }
}
