//! Numbers and their spellings.
use crate::rows::{Tells, each_is_told, is_text, no_row};
use ere_tree::{Ere, parse};
use num_base::{Format, FormatKind};
use num_spell::{print_value, read_value, wild};
use std::alloc::{AllocError, Global};
use tt_base::Bytes;

/// The format of a row: its letter, behind a `#` in the alternate form, and then its digits where there are some.
fn format_of(word: &str) -> Option<Format> {
    let plain = word.strip_prefix('#').unwrap_or(word);
    let digits = plain.get(1..)?;
    Some(Format {
        kind: kind_of(*plain.as_bytes().first()?)?,
        alternate: plain.len() < word.len(),
        digits: if digits.is_empty() {
            0
        } else {
            digits.parse::<u32>().ok()?
        },
    })
}

fn kind_of(letter: u8) -> Option<FormatKind> {
    match letter {
        b'u' => Some(FormatKind::Unsigned),
        b'd' => Some(FormatKind::Signed),
        b'x' => Some(FormatKind::LowerHex),
        b'X' => Some(FormatKind::UpperHex),
        _ => None,
    }
}

/// The three fields of a row, of which the first one is a format.
fn fields(row: &str) -> Option<(Format, &str, &str)> {
    let (format, rest) = row.split_once(" => ")?;
    let (second, third) = rest.split_once(" => ")?;
    Some((format_of(format)?, second, third))
}

/// The text that is printed, or `none`.
fn printed(alloc: Global, format: Format, value: i128) -> Result<String, AllocError> {
    match print_value(alloc, format, value) {
        Ok(Some(bytes)) => text_of(alloc, &bytes),
        Ok(None) => String::from_str(alloc, "none"),
        Err(_) => Err(AllocError),
    }
}

fn text_of(alloc: Global, bytes: &Bytes) -> Result<String, AllocError> {
    let mut text = String::new(alloc);
    for byte in bytes.as_slice() {
        text.push(char::from(*byte))?;
    }
    Ok(text)
}

/// What a number is printed as in a format.
struct Prints;

impl Tells for Prints {
    fn told(&self, alloc: Global, given: &str) -> Result<String, AllocError> {
        match asked(given) {
            Some((format, value)) => printed(alloc, format, value),
            None => no_row(alloc),
        }
    }
}

/// A format and a number.
fn asked(given: &str) -> Option<(Format, i128)> {
    let (format, value) = given.split_once(" => ")?;
    Some((format_of(format)?, value.parse::<i128>().ok()?))
}

/// A format, a number, and what is printed.
const PRINTED: &str = "x4 => 255 => 00ff
#X => 255 => 0xFF
d3 => -7 => -007
u => -1 => none
x => -1 => none
u => 0 => 0
u2 => 1234 => 1234
d => -170141183460469231731687303715884105728 => -170141183460469231731687303715884105728
#x33 => 170141183460469231731687303715884105727 => 0x07fffffffffffffffffffffffffffffff";

#[test]
fn numbers_are_printed_in_their_least_digits(rt: HostRuntime) -> Result<(), AllocError> {
    each_is_told(&rt, rt.alloc(), PRINTED, &Prints)
}

/// Whether the text of a row is read as this number, or as none.
fn is_read(row: &str) -> bool {
    match fields(row) {
        Some((format, text, "none")) => read_value(format, text.as_bytes()).is_none(),
        Some((format, text, due)) => match due.parse::<i128>() {
            Ok(value) => read_value(format, text.as_bytes()) == Some(value),
            Err(_) => false,
        },
        None => false,
    }
}

/// A format, a text, and the number that it spells.
const READ: &str = "x => FF => none
x => ff => 255
X => FF => 255
u => 007 => 7
u2 => 007 => none
u2 => 07 => 7
u2 => 7 => none
u2 => 123 => 123
u => 170141183460469231731687303715884105728 => none
u => 170141183460469231731687303715884105727 => 170141183460469231731687303715884105727
d => -170141183460469231731687303715884105728 => -170141183460469231731687303715884105728
d => -170141183460469231731687303715884105729 => none
d => -0 => 0
d => - => none
u => -1 => none
u => +1 => none
u =>  => none
u => 1  => none
#x => 0xff => 255
#x => ff => none
#x => 0x => none
x => 0xff => none";

#[test]
fn texts_are_read_where_they_spell_a_value(rt: HostRuntime) {
    for row in READ.lines() {
        assert!(rt; is_read(row), "{row}");
    }
}

const UNSIGNED: Format = Format {
    kind: FormatKind::Unsigned,
    alternate: false,
    digits: 0,
};

/// The number that so many copies of a digit spell.
fn value_of(alloc: Global, digit: u8, count: usize) -> Result<Option<i128>, AllocError> {
    let text = vec![in alloc; digit; count]?;
    Ok(read_value(UNSIGNED, text.as_slice()))
}

#[test]
fn a_number_of_many_digits_is_no_value(rt: HostRuntime) -> Result<(), AllocError> {
    assert!(rt; value_of(rt.alloc(), b'9', 40_000)?.is_none());
    assert!(rt; value_of(rt.alloc(), b'0', 40_000)? == Some(0));
    Ok(())
}

/// Whether two trees are written alike.
fn are_alike(alloc: Global, one: &Ere, other: &Ere) -> Result<bool, AllocError> {
    let text = in_words(alloc, one)?;
    is_text(in_words(alloc, other), text.as_str())
}

fn in_words(alloc: Global, ere: &Ere) -> Result<String, AllocError> {
    format!(in alloc; "{ere:?}")
}

/// Whether the expression of a row's format is the one behind the arrow.
fn is_written(alloc: Global, row: &str) -> Result<bool, AllocError> {
    let Some((format, text)) = row.split_once(" => ") else {
        return Ok(false);
    };
    let (Some(format), Ok(due)) = (format_of(format), parse(alloc, text.as_bytes(), false)) else {
        return Ok(false);
    };
    let Ok(ere) = wild(alloc, format) else {
        return Err(AllocError);
    };
    are_alike(alloc, &ere, &due)
}

/// A format, and its expression.
const WRITTEN: &str = "u => [0-9]+
d => -?[0-9]+
x => [0-9a-f]+
#X => 0x[0-9A-F]+
u2 => ([1-9][0-9]*)?[0-9]{2}
d3 => -?([1-9][0-9]*)?[0-9]{3}
#x8 => 0x([1-9a-f][0-9a-f]*)?[0-9a-f]{8}";

#[test]
fn the_expression_of_a_format_is_as_it_is_written(rt: HostRuntime) -> Result<(), AllocError> {
    for row in WRITTEN.lines() {
        assert!(rt; is_written(rt.alloc(), row)?, "{row}");
    }
    Ok(())
}
