//! The line itself.
ghost use Rattle.std.specs.Prelude.{◌≡◌, ◌++◌, IfOk, OnOk, decimal};
ghost use Rattle.lit_progress.specs.Line.{line_text};

use itoa::Buffer;
use std::alloc::Global;
use std::io::Write;
use std::sync::Arc;
use std::sync::atomic::{AtomicU64, Ordering};
use tt_base::{Bytes, NoMemory};

/// What takes a terminal's cursor to the begin of its line, and what clears the line from the cursor on.
const CLEAR: &[u8] = b"\r\x1b[K";

/// What the line tells, and whether it stands at the terminal.
#[derive(Drop)]
struct Numbers {
    begun: AtomicU64,
    failed: AtomicU64,
    drawn: AtomicU64,
}

/// A line of progress at a terminal. Each part of a run has one of its own; all show the same numbers.
#[derive(Drop)]
pub struct ProgressLine<W> {
    alloc: Global,
    numbers: Arc<Numbers>,
    writer: W,
    is_shown: bool,
}

impl<W: Write + Copy> ProgressLine<W> {
    /// A line that is written to a writer, if it is to be shown at all. No test was begun.
    pub fn new(alloc: Global, writer: W, is_shown: bool) -> Result<ProgressLine<W>, NoMemory> {
        let numbers = Numbers {
            begun: AtomicU64::new(0),
            failed: AtomicU64::new(0),
            drawn: AtomicU64::new(0),
        };
        match Arc::new(alloc, numbers) {
            Ok(numbers) => Ok(ProgressLine {
                alloc,
                numbers,
                writer,
                is_shown,
            }),
            Err(_) => Err(NoMemory),
        }
    }

    /// Another one, for another part of the run.
    pub fn another(&self) -> Result<ProgressLine<W>, NoMemory> {
        match Arc::try_clone(&self.numbers) {
            Ok(numbers) => Ok(ProgressLine {
                alloc: self.alloc,
                numbers,
                writer: self.writer,
                is_shown: self.is_shown,
            }),
            Err(_) => Err(NoMemory),
        }
    }

    /// Whether it is shown.
    pub fn is_shown(&self) -> bool {
        self.is_shown
    }

    /// Counts a test that was begun, and shows it.
    pub fn begin(&mut self) {
        let before = self.numbers.begun.fetch_add(1, Ordering::SeqCst);
        if self.is_shown {
            self.draw(before.saturating_add(1));
        }
    }

    /// Counts tests that failed. They are shown when the next one is begun.
    pub fn fail(&self, tests: u64) {
        self.numbers.failed.fetch_add(tests, Ordering::SeqCst);
    }

    /// Clears the line, if it was drawn.
    pub fn clear(&mut self) {
        if self.numbers.drawn.swap(0, Ordering::SeqCst) != 0 {
            let _ = self.writer.write_all(CLEAR);
        }
    }

    /// Draws the line over what stood there. Where there is no memory for it, it stays as it was.
    fn draw(&mut self, begun: u64) {
        let failed = self.numbers.failed.load(Ordering::SeqCst);
        if let Ok(text) = text_of(self.alloc, begun, failed) {
            self.numbers.drawn.store(1, Ordering::SeqCst);
            let _ = self.writer.write_all(text.as_slice());
        }
    }
}

/// What is written for these numbers.
#[tactic(auto, unfolding(crate::specs::Line::line_text))]
fn text_of(alloc: Global, begun: u64, failed: u64) -> Result<Bytes, NoMemory>
    ensures { IfOk result (λ text. text ≡ line_text begun failed) }
{
    let mut text = Bytes::from_slice(alloc, b"\rlit: begun ")?;
    add_number(&mut text, begun)?;
    text.append(b", failed ")?;
    add_number(&mut text, failed)?;
    text.append(b"\x1b[K")?;
    Ok(text)
}

/// Adds the digits of a number.
fn add_number(text: &mut Bytes, number: u64) -> Result<(), NoMemory>
    ensures { OnOk result (text.new ≡ text.old ++ decimal number) }
{
    let mut buffer = Buffer::new();
    text.append(buffer.format(number).as_bytes())
}
