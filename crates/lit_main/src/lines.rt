//! The line of progress of a run.

ghost use Rattle.std.specs.Prelude.{◌≡◌, string_bytes};
ghost use Rattle.std.specs.List.{list_any};
ghost use Rattle.lit_main.specs.Before.{hushes};

use lit_progress::ProgressLine;
use std::alloc::Global;
use std::io::Write;
use tt_base::NoMemory;

/// Whether a word asks for failures alone, or for a report in JSON.
fn hushes(word: &[u8]) -> bool
    ensures { result ≡ hushes word.now }
{
    word == b"-q".as_slice() || word == b"--json".as_slice() || word == b"-json".as_slice()
}

/// Whether the words ask for failures alone, or for a report in JSON: then no line is shown.
pub fn is_quiet(words: &[String]) -> bool
    ensures { result ≡ list_any (λ word. hushes (string_bytes word)) words.now }
{
    words.iter().any(|word| hushes(word.as_bytes()))
}

/// A line of progress for each part of a run.
#[derive(Drop)]
pub struct Lines<W> {
    pub out: ProgressLine<W>,
    pub err: ProgressLine<W>,
    pub crew: ProgressLine<W>,
    pub end: ProgressLine<W>,
}

impl<W: Write + Copy> Lines<W> {
    /// The same line for each, which is written to a writer, if it is to be shown at all.
    pub fn new(alloc: Global, writer: W, is_shown: bool) -> Result<Lines<W>, NoMemory> {
        let end = ProgressLine::new(alloc, writer, is_shown)?;
        Ok(Lines {
            out: end.another()?,
            err: end.another()?,
            crew: end.another()?,
            end,
        })
    }
}
