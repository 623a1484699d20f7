//! What the words of `not` ask.
ghost use Rattle.std.specs.Prelude.{◌≡◌, ◌<◌, IfErr, IfOk, drop, length};
ghost use Rattle.not_count.specs.Command.{IsToldWord, command_in};
ghost use Rattle.opt_words.specs.Step.{texts};

use opt_words::{Form, Name, Row, Table, WordFault};
use std::alloc::Global;
use tt_base::{Bytes, Items, NoMemory};

/// Why no program is run.
#[derive(Clone, Copy, Debug, PartialEq, Eq)]
pub enum NoCommand {
    /// A word before the command's that isn't a plain one, as `--nope`.
    FaultyWord(WordFault),
    /// There are no words of a command.
    Missing,
}

/// What the words ask for.
#[derive(Clone, Copy, Debug, PartialEq, Eq)]
pub struct NotCommand {
    /// Whether the program is to end by a signal.
    pub crash: bool,
    /// The index of the command's first word, the program's name.
    pub first: usize,
}

/// The command that the words ask for.
pub fn command_in(words: &[String]) -> Result<NotCommand, NoCommand>
    ensures value { result ≡ command_in (texts words.now) }
    ensures told { IfErr result (IsToldWord (length words.now)) }
    ensures within { IfOk result (λ command. command.first < length words.now) }
{
    let table = Table {
        rows: [Row {
            name: Name::of("crash"),
            form: Form::Flag,
        }],
        stop_at_plain: true,
    };
    let settings = match table.read(words) {
        Ok(settings) => settings,
        Err(fault) => return Err(NoCommand::FaultyWord(fault)),
    };
    match settings.first_plain {
        None => Err(NoCommand::Missing),
        Some(given) => Ok(NotCommand {
            crash: settings.times[0] > 0,
            first: given.word,
        }),
    }
}

/// The bytes of words, owned.
pub fn bytes_of(alloc: Global, words: &[String]) -> Result<Items<Bytes>, NoMemory>
    ensures { IfOk result (λ list. list ≡ texts words.now) }
{
    let mut list = Items::new(alloc);
    for word in words {
        list.push(Bytes::from_slice(alloc, word.as_bytes())?)?;
    }
    Ok(list)
}
