//! The line of an input that may have been meant.
ghost use Rattle.std.specs.Prelude.{◌≤◌, IfSome, length};

use crate::edits::Wanted;

/// How many lines are looked at.
const MOST_LINES: usize = 4_000;

/// Where the text of the line begins that becomes what is asked for by the fewest edits; of several, that of the first. None where
/// these are half of the bytes that are asked for, or more.
pub fn near_line(wanted: &mut Wanted, text: &[u8]) -> Option<usize>
    ensures { IfSome result (λ at. at ≤ length text.now) }
{
    let mut least = wanted.count().saturating_add(1) / 2;
    let mut found = None;
    let mut start = 0usize;
    for line in text.split(|byte| *byte == b'\n').take(MOST_LINES) {
        let edits = wanted.edits(line);
        if edits < least {
            least = edits;
            found = Some(start.saturating_add(indent_of(line)).min(text.len()));
        }
        start = start.saturating_add(line.len()).saturating_add(1);
    }
    found
}

/// How many blanks stand at the front of a line.
fn indent_of(line: &[u8]) -> usize {
    match line.iter().position(|byte| *byte != b' ' && *byte != b'\t') {
        Some(at) => at,
        None => 0,
    }
}
