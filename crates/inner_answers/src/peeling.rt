//! Words without the `not`s in front of them.
ghost use Rattle.std.specs.Prelude.{◌≡◌, ◌<◌, ◌≤◌, ◌+◌, IfOk, IfSome, [], codes, drop, is_some, length, slice_index_or, take};
ghost use Rattle.std.specs.List.{list_all};
ghost use Rattle.std.specs.Str.{bytes_eq, is_utf8};
ghost use Rattle.opt_words.specs.Step.{texts};
ghost use Rattle.not_count.specs.Command.{command_in};
ghost use Rattle.inner_answers.specs.Peeled.{accepted, command_below, placed};
ghost use Rattle.inner_answers.specs.Peeling.{IsPeeling};

use not_count::{NotCommand, command_in};
use std::alloc::Global;
use std::str::from_utf8;
use tt_base::{Bytes, Items, NoMemory};

/// What stands in front of words: the commands of its `not`s, by their indices among all words, and where what is below these begins.
#[derive(Drop, Debug)]
pub(crate) struct Peeling {
    pub(crate) levels: Items<NotCommand>,
    pub(crate) core: usize,
}

/// Words as texts, unless one isn't UTF-8.
pub(crate) fn texts_of(alloc: Global, words: &[Bytes]) -> Result<Option<Items<String>>, NoMemory>
    ensures some { IfOk result (λ found. is_some found ≡ list_all is_utf8 words.now) }
    ensures value { IfOk result (λ found. IfSome found (λ list. texts list ≡ words.now)) }
{
    let mut list = Items::new(alloc);
    for word in words {
        let Ok(text) = from_utf8(word.as_slice()) else {
            return Ok(None);
        };
        match String::from_str(alloc, text) {
            Ok(text) => list.push(text)?,
            Err(_) => return Err(NoMemory),
        }
    }
    Ok(Some(list))
}

/// How many words there are up to the first that doesn't begin with a dash, with that one. The command of a `not` is known from these.
fn front_len(words: &[String]) -> usize
    ensures within { result ≤ length words.now }
    ensures same { command_in (take result (texts words.now)) ≡ command_in (texts words.now) }
{
    for (at, word) in words.iter().enumerate() {
        if !word.as_bytes().starts_with(b"-") {
            return at + 1;
        }
    }
    words.len()
}

/// The command that words of a `not` ask for, in the time of the words in front of it.
fn front_command(words: &[String]) -> Option<NotCommand>
    ensures value { result ≡ accepted (command_in (texts words.now)) }
    ensures within { IfSome result (λ command. command.first < length words.now) }
{
    match command_in(&words[..front_len(words)]) {
        Ok(command) => Some(command),
        Err(_) => None,
    }
}

/// Whether a word is the name of `not`.
fn is_not(word: &[u8]) -> bool
    ensures { result ≡ bytes_eq word.now (codes "not") }
{
    word == b"not".as_slice()
}

/// The command of a `not` that stands at an index, by its index among all words, where the `not` accepts it and an input that may be
/// short.
fn command_below(words: &[String], at: usize, short: bool) -> Option<NotCommand>
    requires { at < length words.now }
    ensures value { result ≡ placed (at + 1)
        (command_below short (slice_index_or (texts words.now) at []) (drop (at + 1) (texts words.now))) }
    ensures onward { IfSome result (λ command. at < command.first) }
    ensures within { IfSome result (λ command. command.first < length words.now) }
{
    if !short || !is_not(words[at].as_bytes()) {
        return None;
    }
    match front_command(&words[at + 1..]) {
        Some(command) => Some(NotCommand {
            crash: command.crash,
            first: at + 1 + command.first,
        }),
        None => None,
    }
}

/// Words are peeled, with an input that may be short.
pub(crate) fn peel(alloc: Global, words: &[String], short: bool) -> Result<Peeling, NoMemory>
    requires { 0 < length words.now }
    ensures { IfOk result (IsPeeling short (texts words.now)) }
{
    let mut levels = Items::new(alloc);
    let mut core = 0;
    while let Some(command) = command_below(words, core, short) {
        levels.push(command)?;
        core = command.first;
    }
    Ok(Peeling { levels, core })
}
