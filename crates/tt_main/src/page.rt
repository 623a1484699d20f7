//! The pages that a program shows of itself.
ghost use Rattle.std.specs.Prelude.{◌≡◌, map, string_bytes};
ghost use Rattle.tt_main.specs.Page.{Shown, page_named, page_of};
ghost use Rattle.tt_run.specs.Frame.{cannot_write};
ghost use Rattle.tt_run.specs.Run.{stream_of};

use tt_outside::{Sink, write_all};
use tt_run::ToolFrame;

/// A page that a program shows of itself.
#[derive(Clone, Copy, Debug, PartialEq, Eq)]
pub enum Page {
    Help,
    Version,
}

/// The texts of a program's pages.
#[derive(Clone, Copy, Debug)]
pub struct Pages {
    pub help: &'static str,
    pub version: &'static str,
}

impl Pages {
    /// The text of a page.
    pub(crate) fn text(self, page: Page) -> &'static [u8] {
        match page {
            Page::Help => self.help.as_bytes(),
            Page::Version => self.version.as_bytes(),
        }
    }
}

/// The page that the words ask for. It is asked for by the only word: `--help`, `-h` or `--version`.
pub fn page_of(words: &[String]) -> Option<Page>
    ensures { result ≡ page_of (map string_bytes words.now) }
{
    let [word] = words else {
        return None;
    };
    page_named(word.as_bytes())
}

/// The page that a word names.
fn page_named(word: &[u8]) -> Option<Page>
    ensures { result ≡ page_named word.now }
{
    if word == b"--help".as_slice() || word == b"-h".as_slice() {
        Some(Page::Help)
    } else if word == b"--version".as_slice() {
        Some(Page::Version)
    } else {
        None
    }
}

/// Shows a page: 0, or 3 where `out` fails, which is told on `err`.
pub fn show_page<O: Sink, E: Sink>(text: &[u8], frame: ToolFrame, out: &mut O, err: &mut E) -> u8
    ensures shown { Shown text.now (cannot_write frame.name.now) result (stream_of O.Sink out.old out.new)
        (stream_of E.Sink err.old err.new) (err.new ≡ err.old) }
{
    match write_all(out, text) {
        Ok(()) => 0,
        Err(_) => frame.cannot_write(err),
    }
}
