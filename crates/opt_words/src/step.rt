//! What a step from one word to the next takes.
ghost use Rattle.std.specs.Prelude.{◌≡◌, ◌≤◌, ◌<◌, ◌+◌, ◌^◌, false, IfErr, IfOk, IfSome, length, drop, slice_get};
ghost use Rattle.opt_words.specs.Fault.{word_of};
ghost use Rattle.opt_words.specs.Number.{is_number};
ghost use Rattle.opt_words.specs.Step.{Leads, Stands, value_of, formed, is_truth, takes, texts, value_text, valued, numbered};

use crate::fault::WordFault;
use crate::number::is_number;
use crate::row::Form;

/// A row's value, or a plain word: the bytes of a word from an offset on. A Flag's, and that of a Switch without a
/// value, is empty.
#[derive(Clone, Copy, Debug, PartialEq, Eq)]
pub struct Given {
    /// The index of the row, or the number of rows for a plain word.
    pub row: usize,
    /// The index of the word that holds the value.
    pub word: usize,
    /// Where the value begins in it, in bytes from 0.
    pub at: usize,
}

impl Given {
    /// The bytes of the value, in the words that it was read from.
    pub fn value<'a>(&self, words: &'a [String]) -> &'a [u8]
        requires { Stands (texts words.now) self.now }
        ensures { result.now ≡ value_of (texts words.now) self.now }
    {
        words[self.word].as_bytes().split_at(self.at).1
    }
}

/// A step: what it takes, if anything, and where the next one begins.
#[derive(Clone, Copy, Debug, PartialEq, Eq)]
pub struct Step {
    pub given: Option<Given>,
    /// The index of the next word to look at.
    pub next: usize,
    /// Whether that word and all behind it are plain.
    pub only_plain: bool,
}

pub(crate) fn takes(row: usize, word: usize, at: usize, next: usize, only_plain: bool) -> Step
    ensures { result ≡ takes row word at next only_plain }
{
    Step {
        given: Some(Given { row, word, at }),
        next,
        only_plain,
    }
}

fn is_truth(value: &[u8]) -> bool
    ensures { result ≡ is_truth value.now }
{
    value == b"true".as_slice() || value == b"false".as_slice()
}

/// Its own value, or else the next word.
fn valued(
    row: usize,
    at: usize,
    word: &[u8],
    own: Option<usize>,
    rest: &[String],
) -> Result<Step, WordFault>
    requires own { IfSome own (λ own. own ≤ length word.now) }
    requires room { at + length rest.now < 2 ^ 63 }
    ensures value { result ≡ valued row at own (slice_get (texts rest.now) 0) }
    ensures leads { IfOk result (Leads row at word.now (length rest.now)) }
    ensures told { IfErr result (λ fault. word_of fault ≡ at) }
{
    match own {
        Some(own) => Ok(takes(row, at, own, at + 1, false)),
        None => {
            if rest.is_empty() {
                return Err(WordFault::MissingValue(at));
            }
            Ok(takes(row, at + 1, 0, at + 2, false))
        }
    }
}

/// The value's text, or nothing where there is none.
fn value_text<'a>(word: &'a [u8], own: Option<usize>, rest: &'a [String]) -> &'a [u8]
    requires { IfSome own (λ at. at ≤ length word.now) }
    ensures { result.now ≡ value_text word.now own (slice_get (texts rest.now) 0) }
{
    match own {
        Some(own) => word.split_at(own).1,
        None => match rest.first() {
            Some(value) => value.as_bytes(),
            None => b"".as_slice(),
        },
    }
}

/// The step at an option that means a row of this form.
pub(crate) fn formed(
    form: &Form,
    row: usize,
    at: usize,
    word: &[u8],
    own: Option<usize>,
    rest: &[String],
) -> Result<Step, WordFault>
    requires own { IfSome own (λ at. at ≤ length word.now) }
    requires room { at + length rest.now < 2 ^ 63 }
    ensures value { result ≡ formed form.now row at word.now own (slice_get (texts rest.now) 0) }
    ensures leads { IfOk result (Leads row at word.now (length rest.now)) }
    ensures told { IfErr result (λ fault. word_of fault ≡ at) }
{
    match form {
        Form::Flag => match own {
            None => Ok(takes(row, at, word.len(), at + 1, false)),
            Some(_) => Err(WordFault::UnwantedValue(at)),
        },
        Form::Switch => match own {
            None => Ok(takes(row, at, word.len(), at + 1, false)),
            Some(own) => {
                if !is_truth(word.split_at(own).1) {
                    return Err(WordFault::UnwantedValue(at));
                }
                Ok(takes(row, at, own, at + 1, false))
            }
        },
        Form::Once => valued(row, at, word, own, rest),
        Form::Many => valued(row, at, word, own, rest),
        Form::Glued => valued(row, at, word, own, rest),
        Form::Number { least, most } => {
            let step = valued(row, at, word, own, rest)?;
            if !is_number(*least, *most, value_text(word, own, rest)) {
                return Err(WordFault::BadNumber(at));
            }
            Ok(step)
        }
    }
}
