//! Lines, counted without memory.
ghost use Rattle.std.specs.Prelude.{◌+◌, ◌^◌};
ghost use Rattle.tt_outside.specs.Transfer.{TakesAtMost};
ghost use Rattle.tt_run.specs.Run.{source_of};
ghost use Rattle.not_count.specs.Lines.{IsCounted};

use byte_counts::count_of;
use tt_outside::{Failed as ReadFailed, Source};

/// What counting came to.
#[derive(Clone, Copy, Debug, PartialEq, Eq)]
pub enum Counted {
    /// So many lines, up to the input's end.
    Lines(u64),
    /// The input has more bytes than the limit.
    TooLong,
    /// A read failed.
    Failed,
}

/// The greatest length of an input, in bytes.
pub const LIMIT: u64 = 1_099_511_627_776;

/// How many bytes are read at once.
const PIECE: usize = 1 << 16;

/// Counts the lines of a source.
pub fn count_lines<I: Source>(input: &mut I) -> Counted
    ensures counted { IsCounted (source_of I.Source input.old input.new) (2 ^ 40) result }
    ensures taken { TakesAtMost (I.left input.old) (I.left input.new) (2 ^ 40 + 1) }
{
    let mut buffer = [0; PIECE];
    let mut taken: u64 = 0;
    let mut lines: u64 = 0;
    loop {
        let want = (LIMIT + 1 - taken).min(PIECE as u64) as usize;
        let piece = &mut buffer[..want];
        let count = match input.read(piece) {
            Ok(count) => count,
            Err(ReadFailed) => return Counted::Failed,
        };
        if count == 0 {
            return Counted::Lines(lines);
        }
        taken += count as u64;
        if taken > LIMIT {
            return Counted::TooLong;
        }
        lines += count_of(b'\n', &piece[..count]) as u64;
    }
}
