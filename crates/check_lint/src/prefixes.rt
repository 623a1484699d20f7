//! The check prefixes that a file's RUN lines name.
use std::alloc::Global;
use tt_base::{Bytes, NoMemory};

/// What stands before the command of a test.
const RUN: &[u8] = b"RUN:";

/// The check prefixes that the RUN lines of a check file name, in order, each once; and CHECK where none is named, or where
/// FileCheck is run on a line that names none.
pub fn prefixes_in(alloc: Global, text: &[u8]) -> Result<Vec<Bytes>, NoMemory> {
    let mut named = Named {
        prefixes: Vec::new(alloc),
        by_default: false,
    };
    for line in text.split(|byte| *byte == b'\n') {
        if let Some(command) = behind_run(line) {
            named.add_line(alloc, command)?;
        }
    }
    if named.by_default || named.prefixes.is_empty() {
        named.add(alloc, b"CHECK")?;
    }
    Ok(named.prefixes)
}

/// The text of a line behind `RUN:`.
fn behind_run(line: &[u8]) -> Option<&[u8]> {
    for at in 0..line.len() {
        let rest = line.split_at(at).1;
        if rest.starts_with(RUN) {
            return Some(rest.split_at(RUN.len()).1);
        }
    }
    None
}

/// The prefixes that were named so far.
#[derive(Drop)]
struct Named {
    prefixes: Vec<Bytes>,
    /// FileCheck is run on a line that names none.
    by_default: bool,
}

impl Named {
    /// Adds the prefixes that a line names.
    fn add_line(&mut self, alloc: Global, command: &[u8]) -> Result<(), NoMemory> {
        let (mut runs, mut names, mut is_value) = (false, false, false);
        for word in command.split(|byte| *byte == b' ' || *byte == b'\t') {
            if word.is_empty() {
                continue;
            }
            if is_value {
                self.add_list(alloc, word)?;
                is_value = false;
                continue;
            }
            runs = runs || is_filecheck(word);
            match value_of(word) {
                Value::Here(list) => {
                    names = true;
                    self.add_list(alloc, list)?;
                }
                Value::Next => {
                    names = true;
                    is_value = true;
                }
                Value::None => {}
            }
        }
        self.by_default = self.by_default || (runs && !names);
        Ok(())
    }

    /// Adds the prefixes of a list with commas.
    fn add_list(&mut self, alloc: Global, list: &[u8]) -> Result<(), NoMemory> {
        for name in list.split(|byte| *byte == b',') {
            if !name.is_empty() {
                self.add(alloc, name)?;
            }
        }
        Ok(())
    }

    /// Adds a prefix that isn't there.
    fn add(&mut self, alloc: Global, name: &[u8]) -> Result<(), NoMemory> {
        if self.prefixes.iter().any(|it| it.as_slice() == name) {
            return Ok(());
        }
        match self.prefixes.push(Bytes::from_slice(alloc, name)?) {
            Ok(()) => Ok(()),
            Err(_) => Err(NoMemory),
        }
    }
}

/// Whether a word is a path or a name of FileCheck, or a replacement for it.
fn is_filecheck(word: &[u8]) -> bool {
    word.ends_with(b"FileCheck") || word.ends_with(b"filecheck")
}

/// The value of an option that names prefixes.
#[derive(Clone, Copy)]
enum Value<'a> {
    Here(&'a [u8]),
    /// It is the next word.
    Next,
    None,
}

/// What a word says of prefixes.
fn value_of(word: &[u8]) -> Value<'_> {
    let name = match word {
        [b'-', b'-', name @ ..] => name,
        [b'-', name @ ..] => name,
        _ => return Value::None,
    };
    let rest = if name.starts_with(b"check-prefixes") {
        name.split_at(14).1
    } else if name.starts_with(b"check-prefix") {
        name.split_at(12).1
    } else {
        return Value::None;
    };
    match rest {
        [] => Value::Next,
        [b'=', list @ ..] => Value::Here(list),
        _ => Value::None,
    }
}
