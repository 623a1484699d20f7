//! Dumps. A row is a line with five fields between `~`: a text, its marks as offsets with a sign, `all` or the lines of context, and
//! the rows between the frame. Newlines stand as `/`.
ghost use Rattle.std.specs.Prelude.{◌≡◌, ◌≤◌, All, IsTrue};

use crate::fields::{are_bytes, field_of};
use input_dump::{HEAD, Mark, Shown, TAIL, dump};
use std::alloc::Global;
use std::slice;
use tt_base::{Bytes, NoMemory};

/// Marks, as `3X` for a sign at an offset, with the text `m` and the number of the mark.
fn marks_of(alloc: Global, field: &str) -> Result<Vec<Mark>, NoMemory> {
    let mut marks = Vec::new(alloc);
    for word in field.split(' ') {
        let digits = word.trim_end_matches('X').trim_end_matches('!');
        let Ok(at) = digits.parse::<usize>() else {
            continue;
        };
        let mut text = Bytes::from_slice(alloc, b"m")?;
        text.append(&[b'0' + (marks.len() % 10) as u8])?;
        let sign = if word.ends_with('X') { b'X' } else { b'!' };
        let Ok(()) = marks.push(Mark { at, sign, text }) else {
            return Err(NoMemory);
        };
    }
    Ok(marks)
}

fn shown_of(field: &str) -> Shown {
    match field.parse::<u64>() {
        Ok(context) => Shown {
            all: false,
            context,
        },
        Err(_) => Shown {
            all: true,
            context: 0,
        },
    }
}

/// Whether all marks lie in a text of this size.
fn are_within(marks: &[Mark], size: usize) -> bool
    ensures { IsTrue result → All (λ mark. mark.at ≤ size) marks.now }
{
    marks.iter().all(|mark| mark.at <= size)
}

/// What is due between the frame.
fn framed(alloc: Global, due: &str) -> Result<Bytes, NoMemory> {
    let rows = field_of(alloc, due)?;
    let mut whole = Bytes::from_slice(alloc, HEAD)?;
    whole.append(rows.as_slice())?;
    whole.append(TAIL)?;
    Ok(whole)
}

/// Whether the dump of a text with marks has the rows that are due.
fn is_dumped(
    alloc: Global,
    text: &[u8],
    marks: &[Mark],
    shown: &str,
    due: &str,
) -> Result<bool, NoMemory> {
    if text.len() > 1000 || !are_within(marks, text.len()) {
        return Ok(false);
    }
    let due = framed(alloc, due)?;
    are_bytes(dump(alloc, text, marks, &shown_of(shown)), due.as_slice())
}

/// Whether a dump has the rows that are due.
fn is_due(alloc: Global, row: &str) -> Result<bool, NoMemory> {
    let mut fields = row.split('~');
    let (Some(text), Some(marks), Some(shown), Some(due)) = (
        fields.next(),
        fields.next(),
        fields.next(),
        fields.next(),
    ) else {
        return Ok(false);
    };
    let text = field_of(alloc, text)?;
    let marks = marks_of(alloc, marks)?;
    is_dumped(alloc, text.as_slice(), marks.as_slice(), shown, due)
}

const DUMPS: &str = "bar/~0X~5~     1: bar/        X m0/
foo/~~all~     1: foo/
foo/~~5~   .../
~~all~
~~5~
~0X~5~     1: /        X m0/
~0X~all~     1: /        X m0/
a/~2X~0~   .../     2: /        X m0/
a/~2X~1~     1: a/     2: /        X m0/
a~1!~0~     1: a/         ! m0/
a/b/c~~all~     1: a/     2: b/     3: c/
a/b/c/d/e/f/g/~6!~1~   .../     3: c/     4: d/        ! m0/     5: e/   .../
a/b/c/d/e/f/g/~0! 12X~1~     1: a/        ! m0/     2: b/   .../     6: f/     7: g/        X m1/
a/b/c/d/e/f/g/~12X 0!~0~     1: a/        ! m1/   .../     7: g/        X m0/
abc~2X 0! 2!~0~     1: abc/        ! m1/          X m0/          ! m2/
abc//d~3X 4! 5!~0~     1: abc/           X m0/     2: /        ! m1/     3: d/        ! m2/
a/b/c~0X~18446744073709551615~     1: a/        X m0/     2: b/     3: c/
a//~~all~     1: a/     2: /";

#[test]
fn a_dump_shows_marked_lines_and_those_near(rt: HostRuntime) -> Result<(), NoMemory> {
    for row in DUMPS.lines() {
        assert!(rt; is_due(rt.alloc(), row)?, "{row}");
    }
    Ok(())
}

/// So many lines.
fn lines_of(alloc: Global, lines: usize) -> Result<Bytes, NoMemory> {
    let mut text = Bytes::new(alloc);
    for _ in 0..lines {
        text.append(b"a\n")?;
    }
    Ok(text)
}

/// The dump of a text with a mark, and a line of context.
fn told_of(alloc: Global, text: &[u8], mark: &Mark) -> Result<Bytes, NoMemory> {
    let shown = Shown {
        all: false,
        context: 1,
    };
    if text.len() > 10_000 || mark.at > text.len() {
        return Ok(Bytes::new(alloc));
    }
    dump(alloc, text, slice::from_ref(mark), &shown)
}

/// The dump of so many lines, of which one has a mark.
fn is_told_of(alloc: Global, lines: usize, marked: usize, due: &str) -> Result<bool, NoMemory> {
    let due = field_of(alloc, due)?;
    let text = lines_of(alloc, lines)?;
    let mark = Mark {
        at: marked.saturating_sub(1).saturating_mul(2),
        sign: b'X',
        text: Bytes::from_slice(alloc, b"m")?,
    };
    are_bytes(told_of(alloc, text.as_slice(), &mark), due.as_slice())
}

#[test]
fn lines_are_numbered_far_into_a_text(rt: HostRuntime) -> Result<(), NoMemory> {
    let due = "Input was:/<<<<<</   .../   998: a/   999: a/        X m/  1000: a/   .../>>>>>>/";
    assert!(rt; is_told_of(rt.alloc(), 2000, 999, due)?);
    Ok(())
}
