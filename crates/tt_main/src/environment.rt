//! The words that a variable of the environment puts before those of the command line.
ghost use Rattle.std.specs.Prelude.{◌≡◌, ◌++◌, ◌∷◌, [], IfOk, OnOk, filter, map, string_bytes};
ghost use Rattle.std.specs.List.{slice_split};
ghost use Rattle.tt_main.specs.Environment.{is_between, is_word, words_in};

use std::alloc::{AllocError, Global};
use std::env::{self, Env, VarError};
use std::io::{self, Error, ErrorKind};
use std::str;

/// The words of the command line behind those of a variable of the environment, if it is there. A word that isn't text is an
/// error.
pub fn with_variable<R: Env + AllocGlobal>(
    rt: &R,
    name: &str,
    words: Vec<String>,
) -> io::Result<Vec<String>> {
    match env::var(rt, name) {
        Ok(value) => put_before(rt.alloc(), value.as_bytes(), words),
        Err(VarError::NotPresent) => Ok(words),
        Err(VarError::OutOfMemory) => Err(Error::from(AllocError)),
        Err(VarError::NotUnicode) => Err(Error::from(ErrorKind::InvalidData)),
    }
}

/// The words of a variable's value, and behind them the words.
pub fn put_before(alloc: Global, value: &[u8], words: Vec<String>) -> io::Result<Vec<String>>
    ensures { IfOk result (λ all. map string_bytes all.items
        ≡ words_in value.now ++ map string_bytes words.items) }
{
    let mut words = words;
    let mut all = words_of(alloc, value)?;
    all.append(&mut words)?;
    Ok(all)
}

/// The words of a variable's value.
fn words_of(alloc: Global, value: &[u8]) -> io::Result<Vec<String>>
    ensures { IfOk result (λ words. map string_bytes words.items ≡ words_in value.now) }
{
    let parts = parts(alloc, value)?;
    words_among(alloc, parts.as_slice())
}

/// Those of the parts that are words.
fn words_among(alloc: Global, parts: &[&[u8]]) -> io::Result<Vec<String>>
    ensures { IfOk result (λ words. map string_bytes words.items
        ≡ filter is_word (map (λ part. part.now) parts.now)) }
{
    let mut words = Vec::new(alloc);
    for part in parts {
        if !part.is_empty() {
            add_word(alloc, &mut words, part)?;
        }
    }
    Ok(words)
}

/// What stands between blanks and newlines.
fn parts(alloc: Global, value: &[u8]) -> Result<Vec<&[u8]>, AllocError>
    ensures { IfOk result (λ parts. map (λ part. part.now) parts.items ≡ slice_split is_between value.now) }
{
    value.split(|byte| is_between(*byte)).collect(alloc)
}

/// Whether a byte stands between words.
fn is_between(byte: u8) -> bool
    ensures { result ≡ is_between byte }
{
    byte == b' ' || byte == b'\t' || byte == b'\n' || byte == b'\r'
}

/// Adds a word.
fn add_word(alloc: Global, words: &mut Vec<String>, word: &[u8]) -> io::Result<()>
    ensures { OnOk result (map string_bytes words.new.items
        ≡ map string_bytes words.old.items ++ (word.now ∷ [])) }
{
    match str::from_utf8(word) {
        Ok(text) => Ok(words.push(String::from_str(alloc, text)?)?),
        Err(_) => Err(Error::from(ErrorKind::InvalidData)),
    }
}
