//! What every program does before its top call: it has the words of the command line, or tells why there are none, and shows
//! the pages of its own that they ask for.
#![tactic(auto)]

mod environment;
mod page;

ghost use Rattle.std.specs.IoError.{error_kind};
ghost use Rattle.tt_main.specs.NoWords.{NoWords};
ghost use Rattle.tt_run.specs.Run.{stream_of};

pub use environment::{put_before, with_variable};
pub use page::{Page, Pages, page_of, show_page};
use std::env::{self, Env};
use std::io::{self, ErrorKind};
use tt_outside::Sink;
use tt_run::ToolFrame;

/// The words of the command line, without the program's name.
pub fn words<R: Env + AllocGlobal>(rt: &R) -> io::Result<Vec<String>> {
    let mut words = env::args(rt)?;
    words.next();
    Ok(words.collect(rt.alloc())?)
}

/// The words with which a program calls its top call. It may end before that, with a status: where there are no words, or where they
/// ask for one of its pages, which is shown.
pub fn words_or_page<R: Env + AllocGlobal, O: Sink, E: Sink>(
    rt: &R,
    frame: ToolFrame,
    pages: Pages,
    out: &mut O,
    err: &mut E,
) -> Result<Vec<String>, u8> {
    let words = match words(rt) {
        Ok(words) => words,
        Err(error) => return Err(no_words(&error, frame, err)),
    };
    match page_of(words.as_slice()) {
        Some(page) => Err(show_page(pages.text(page), frame, out, err)),
        None => Ok(words),
    }
}

/// Tells why there are no words: one of them isn't text, with status 2; or there was no memory for them, with status 4.
pub fn no_words<E: Sink>(error: &io::Error, frame: ToolFrame, err: &mut E) -> u8
    ensures { NoWords frame.name.now (error_kind error.now) result (stream_of E.Sink err.old err.new) }
{
    match error.kind() {
        ErrorKind::OutOfMemory => frame.out_of_memory(err),
        _ => frame.not_text(err),
    }
}
