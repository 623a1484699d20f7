//! Words, and what their quotes hide.
ghost use Rattle.std.specs.Prelude.{◌≡◌, ◌≤◌, ◌<◌, true, IfOk, length, drop};
ghost use Rattle.mini_shell.specs.Class.{begins};
ghost use Rattle.mini_shell.specs.Fault.{Says};
ghost use Rattle.mini_shell.specs.Word.{ended, none_of_it, taken, turn_of, word_at};
ghost use Rattle.mini_shell.specs.declared.class.Class.TheVariants.{Inner};

use crate::class::{Class, ends_word, has};
use crate::fault::{ShellFail, ShellKind, refuse};
use std::alloc::Global;
use tt_base::{Bytes, NoMemory};

/// How the next byte of a word is quoted.
#[derive(Clone, Copy, Debug, PartialEq, Eq)]
pub(crate) enum Quoting {
    Bare,
    /// Behind a backslash.
    Escaped,
    /// In single quotes.
    Single,
    /// In double quotes.
    Double,
    /// Behind a backslash in double quotes.
    Slash,
}

/// What of a byte belongs to its word.
#[derive(Clone, Copy, Debug, PartialEq, Eq)]
pub(crate) enum Take {
    Byte,
    /// The backslash before it, and the byte.
    Both,
    /// Nothing: it quotes others.
    Mark,
    /// Nothing: it is what begins to quote others.
    Opening,
}

/// What a byte is in a word.
#[derive(Clone, Copy, Debug, PartialEq, Eq)]
pub(crate) enum Turn {
    /// The first byte behind it.
    Ends,
    Refused(ShellKind),
    /// Part of it; how the next byte is quoted.
    Goes(Take, Quoting),
}

/// A word that is being read.
#[derive(Drop, Debug)]
pub(crate) struct Open {
    pub(crate) quoting: Quoting,
    /// Where the last quote or backslash stands, that began to quote.
    pub(crate) opened: usize,
    /// The bytes that were read, without those that only quote.
    pub(crate) value: Bytes,
}

/// A word, and the offset behind it.
#[derive(Drop, Debug)]
pub(crate) struct Word {
    pub(crate) value: Bytes,
    pub(crate) end: usize,
}

/// What a byte is in a word where nothing quotes it.
fn turn_bare(byte: u8) -> Turn
    ensures { result ≡ turn_of Quoting.Bare byte }
{
    if ends_word(byte) {
        Turn::Ends
    } else if byte == b'\\' {
        Turn::Goes(Take::Opening, Quoting::Escaped)
    } else if byte == b'\'' {
        Turn::Goes(Take::Opening, Quoting::Single)
    } else if byte == b'"' {
        Turn::Goes(Take::Opening, Quoting::Double)
    } else if has(Class::Glob, byte) {
        Turn::Refused(ShellKind::Glob)
    } else if byte == b'`' {
        Turn::Refused(ShellKind::BadOperator)
    } else {
        Turn::Goes(Take::Byte, Quoting::Bare)
    }
}

/// What a byte is in a word where it is quoted so.
fn turn_of(quoting: Quoting, byte: u8) -> Turn
    ensures { result ≡ turn_of quoting byte }
{
    match quoting {
        Quoting::Bare => turn_bare(byte),
        Quoting::Escaped => Turn::Goes(Take::Byte, Quoting::Bare),
        Quoting::Single => {
            if byte == b'\'' {
                Turn::Goes(Take::Mark, Quoting::Bare)
            } else {
                Turn::Goes(Take::Byte, Quoting::Single)
            }
        }
        Quoting::Double => {
            if byte == b'"' {
                Turn::Goes(Take::Mark, Quoting::Bare)
            } else if byte == b'\\' {
                Turn::Goes(Take::Mark, Quoting::Slash)
            } else {
                Turn::Goes(Take::Byte, Quoting::Double)
            }
        }
        Quoting::Slash => {
            if byte == b'"' || byte == b'\\' {
                Turn::Goes(Take::Byte, Quoting::Double)
            } else {
                Turn::Goes(Take::Both, Quoting::Double)
            }
        }
    }
}

/// The word behind a byte at an offset.
fn taken(word: Open, at: usize, byte: u8, take: Take, quoting: Quoting) -> Result<Open, NoMemory>
    ensures { IfOk result (λ next. next ≡ taken word at byte take quoting) }
{
    let mut value = word.value;
    let mut opened = word.opened;
    match take {
        Take::Byte => value.append(&[byte])?,
        Take::Both => value.append(&[b'\\', byte])?,
        Take::Mark => {}
        Take::Opening => opened = at,
    }
    Ok(Open {
        quoting,
        opened,
        value,
    })
}

/// The word that ends with its text at an offset.
fn ended(word: Open, at: usize) -> Result<Word, ShellFail>
    ensures { Says result (ended word.quoting word at) }
{
    match word.quoting {
        Quoting::Bare => Ok(Word {
            value: word.value,
            end: at,
        }),
        Quoting::Escaped | Quoting::Single | Quoting::Double | Quoting::Slash => {
            refuse(ShellKind::NoQuoteEnd, word.opened)
        }
    }
}

/// The word that begins at an offset.
pub(crate) fn read_word(alloc: Global, text: &[u8], from: usize) -> Result<Word, ShellFail>
    requires front { begins Inner (drop from text.now) ≡ true }
    ensures exact { Says result (word_at from (drop from text.now)) }
    ensures onward { IfOk result (λ word. (from < word.end) × (word.end ≤ length text.now)) }
{
    let mut word = Open {
        quoting: Quoting::Bare,
        opened: from,
        value: Bytes::new(alloc),
    };
    let mut at = from;
    while at < text.len() {
        match turn_of(word.quoting, text[at]) {
            Turn::Ends => {
                return Ok(Word {
                    value: word.value,
                    end: at,
                });
            }
            Turn::Refused(kind) => return refuse(kind, at),
            Turn::Goes(take, quoting) => match taken(word, at, text[at], take, quoting) {
                Ok(next) => word = next,
                Err(NoMemory) => return Err(ShellFail::NoMemory),
            },
        }
        at += 1;
    }
    ended(word, at)
}
