//! Streams beside which a line of progress is shown.

use crate::line::ProgressLine;
use crate::tally::Tally;
use std::io::Write;
use tt_outside::{Failed, Sink};

/// A sink that clears the line before it takes bytes, and counts the tests that failed by the report that it takes.
#[derive(Drop)]
pub struct ProgressSink<S, W> {
    sink: S,
    line: ProgressLine<W>,
    tally: Tally,
}

impl<S, W> ProgressSink<S, W> {
    /// The sink, beside which the line is shown.
    pub fn new(sink: S, line: ProgressLine<W>) -> ProgressSink<S, W> {
        ProgressSink {
            sink,
            line,
            tally: Tally::new(),
        }
    }
}

impl<S: Sink, W: Write + Copy> Sink for ProgressSink<S, W> {
    ghost held = { λ it. S.held it.sink };

    ghost faults = { λ it. S.faults it.sink };

    ghost room = { λ it. S.room it.sink };

    fn write(&mut self, piece: &[u8]) -> Result<usize, Failed> {
        self.line.clear();
        match self.sink.write(piece) {
            Ok(count) => {
                if self.line.is_shown() {
                    let failed = self.tally.take(&piece[..count]);
                    self.line.fail(failed);
                }
                Ok(count)
            }
            Err(Failed) => Err(Failed),
        }
    }
}
