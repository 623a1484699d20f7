//! How many tests in a report failed.

use arrayvec::ArrayVec;

/// What begins and ends a transcript, and is no part of a result.
const STARS: &[u8] = b"********************";

/// Counts the tests of a report that failed, as the report is written.
#[derive(Drop)]
pub struct Tally {
    head: ArrayVec<u8, 20>,
    is_transcript: bool,
}

impl Tally {
    /// Nothing was written.
    pub fn new() -> Tally {
        Tally {
            head: ArrayVec::new(),
            is_transcript: false,
        }
    }

    /// Takes the next bytes of the report, and tells how many tests failed by the lines that end in them.
    pub fn take(&mut self, piece: &[u8]) -> u64 {
        let mut failed: u64 = 0;
        for byte in piece {
            if *byte != b'\n' {
                let _ = self.head.try_push(*byte);
            } else if self.end_line() {
                failed = failed.saturating_add(1);
            }
        }
        failed
    }

    /// Whether the line that ends here tells of a test that failed.
    fn end_line(&mut self) -> bool {
        let head = self.head.as_slice();
        let is_edge = head == STARS;
        let failed = !self.is_transcript && is_failure(head);
        self.head.clear();
        if is_edge {
            self.is_transcript = !self.is_transcript;
        }
        failed
    }
}

/// Whether a line that begins so tells of a test that failed.
fn is_failure(head: &[u8]) -> bool {
    head.starts_with(b"FAIL: ") || head.starts_with(b"XPASS: ") || head.starts_with(b"UNRESOLVED: ")
}
