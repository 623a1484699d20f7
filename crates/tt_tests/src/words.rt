//! The words of a command line that is made up.
ghost use Rattle.std.specs.Io.{WritesAtMost};

use std::alloc::Global;
use std::env::{Env, FillError};
use std::io;
use tt_main::{with_variable, words};

/// A command line, the program's name first, and the value of the variable OPTS, if there is one.
#[derive(Drop)]
struct Line<'a>(&'a [&'a str], Option<&'a str>);

/// Fills the front of a buffer.
fn fill(buf: &mut [u8], bytes: &[u8]) -> Result<usize, FillError>
    ensures { WritesAtMost result buf.new }
{
    if bytes.len() > buf.len() {
        return Err(FillError::TooLong);
    }
    buf[..bytes.len()].copy_from_slice(bytes);
    Ok(bytes.len())
}

impl Env for Line<'_> {
    fn arg(&self, i: usize, buf: &mut [u8]) -> Result<usize, FillError> {
        let Some(word) = self.0.get(i) else {
            return Err(FillError::NotPresent);
        };
        fill(buf, word.as_bytes())
    }

    fn var(&self, name: &str, buf: &mut [u8]) -> Result<usize, FillError> {
        match self.1 {
            Some(value) => {
                if name == "OPTS" {
                    fill(buf, value.as_bytes())
                } else {
                    Err(FillError::NotPresent)
                }
            }
            None => Err(FillError::NotPresent),
        }
    }

    fn var_at(&self, _i: usize, _buf: &mut [u8]) -> Result<usize, FillError> {
        Err(FillError::NotPresent)
    }
}

/// Whether words are these, in their order.
fn are(words: &[String], due: &[&str]) -> bool {
    if words.len() != due.len() {
        return false;
    }
    for (word, due) in words.iter().zip(due) {
        if word.as_str() != *due {
            return false;
        }
    }
    true
}

/// Whether all words of a line but the first are these, in their order.
fn has_words(alloc: Global, line: &[&str], due: &[&str]) -> io::Result<bool> {
    let words = words(&(Line(line, None), alloc))?;
    Ok(are(words.as_slice(), due))
}

/// Whether the words of a line, with those of a variable of this value put before, are these.
fn has_all(alloc: Global, value: Option<&str>, line: &[&str], due: &[&str]) -> io::Result<bool> {
    let env = (Line(line, value), alloc);
    let words = words(&env)?;
    let all = with_variable(&env, "OPTS", words)?;
    Ok(are(all.as_slice(), due))
}

#[test]
fn each_word_behind_the_name_is_kept_as_it_is(rt: HostRuntime) -> io::Result<()> {
    for (line, due) in [
        (["count", "", " a "].as_slice(), ["", " a "].as_slice()),
        (["count"].as_slice(), [].as_slice()),
        (["", "b", "b", ""].as_slice(), ["b", "b", ""].as_slice()),
    ] {
        assert!(rt; has_words(rt.alloc(), line, due)?, "{line:?}");
    }
    Ok(())
}

#[test]
fn words_of_a_variable_stand_before_those_of_the_line(rt: HostRuntime) -> io::Result<()> {
    for (value, line, due) in [
        (None, ["f", "a b"].as_slice(), ["a b"].as_slice()),
        (Some(""), ["f", "c"].as_slice(), ["c"].as_slice()),
        (Some(" \t\r\n "), ["f", ""].as_slice(), [""].as_slice()),
        (
            Some("-a  -b=1\t'c d'\n"),
            ["f", "e"].as_slice(),
            ["-a", "-b=1", "'c", "d'", "e"].as_slice(),
        ),
        (Some("a"), ["f"].as_slice(), ["a"].as_slice()),
    ] {
        assert!(rt; has_all(rt.alloc(), value, line, due)?, "{line:?}");
    }
    Ok(())
}
