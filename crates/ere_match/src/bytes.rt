//! How many bytes of long spans are gone through.

/// How long a span is at most that doesn't count.
const SHORT_SPAN: usize = 512;

/// How many bytes tries went through in long spans.
#[derive(Drop)]
pub(crate) struct Bytes {
    taken: usize,
}

impl Bytes {
    /// None so far.
    pub(crate) fn new() -> Bytes {
        Bytes { taken: 0 }
    }

    /// Whether they were more than so many.
    pub(crate) fn are_past(&self, count: usize) -> bool {
        self.taken > count
    }

    /// A span so long is gone through so often.
    pub(crate) fn take(&mut self, width: usize, times: usize) {
        if width > SHORT_SPAN {
            self.taken = self.taken.saturating_add(width.saturating_mul(times));
        }
    }
}
