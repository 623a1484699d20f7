//! The header of a report, and the parts of its tests.
ghost use Rattle.std.specs.Prelude.{◌≡◌, ◌++◌, ◌<◌, ◌^◌, IfOk, OnOk};
ghost use Rattle.lit_report.specs.Report.{has_line, has_transcript, header, line_of, part_of, title_of, transcript_of};

use crate::reported::Reported;
use crate::text::{add_number, stars};
use lit_words::Detail;
use std::alloc::Global;
use test_outcome::Outcome;
use tt_base::{Bytes, NoMemory};

/// Whether there is a line for a test of this result.
fn has_line(detail: Detail, outcome: Outcome) -> bool
    ensures { result ≡ has_line detail outcome }
{
    match detail {
        Detail::Quiet => outcome.is_failure(),
        Detail::Json => false,
        Detail::Whole | Detail::Verbose | Detail::Plain => true,
    }
}

/// Whether the transcript of a test of this result is shown.
fn has_transcript(detail: Detail, outcome: Outcome) -> bool
    ensures { result ≡ has_transcript detail outcome }
{
    match detail {
        Detail::Whole => true,
        Detail::Verbose => outcome.is_failure(),
        Detail::Quiet | Detail::Plain | Detail::Json => false,
    }
}

/// Adds the line of a test.
fn add_line<T: Reported>(text: &mut Bytes, tests: u64, place: u64, test: &T) -> Result<(), NoMemory>
    requires { place < 2 ^ 32 }
    ensures { OnOk result (text.new ≡ text.old ++ line_of tests place (T.told test.now)) }
{
    text.append(test.outcome().name())?;
    text.append(b": ")?;
    text.append(test.name())?;
    text.append(b" (")?;
    add_number(text, place + 1)?;
    text.append(b" of ")?;
    add_number(text, tests)?;
    text.append(b")\n")
}

/// Adds the line above a transcript.
fn add_title<T: Reported>(text: &mut Bytes, test: &T) -> Result<(), NoMemory>
    ensures { OnOk result (text.new ≡ text.old ++ title_of (T.told test.now)) }
{
    text.append(stars())?;
    text.append(b" TEST '")?;
    text.append(test.name())?;
    text.append(b"' ")?;
    text.append(test.outcome().name())?;
    text.append(b" ")?;
    text.append(stars())?;
    text.append(b"\n")
}

/// Adds the transcript of a test, between stars.
fn add_transcript<T: Reported>(text: &mut Bytes, test: &T) -> Result<(), NoMemory>
    ensures { OnOk result (text.new ≡ text.old ++ transcript_of (T.told test.now)) }
{
    add_title(text, test)?;
    test.add_text(text)?;
    text.append(stars())?;
    text.append(b"\n")
}

/// The part of a test. Its place counts from 0.
pub fn part_of<T: Reported>(
    alloc: Global,
    detail: Detail,
    tests: u64,
    place: u64,
    test: &T,
) -> Result<Bytes, NoMemory>
    requires { place < 2 ^ 32 }
    ensures { IfOk result (λ part. part ≡ part_of detail tests place (T.told test.now)) }
{
    let mut part = Bytes::new(alloc);
    let outcome = test.outcome();
    if has_line(detail, outcome) {
        add_line(&mut part, tests, place, test)?;
    }
    if has_transcript(detail, outcome) {
        add_transcript(&mut part, test)?;
    }
    Ok(part)
}

/// The header of a report of so many tests.
pub fn header(alloc: Global, detail: Detail, tests: u64) -> Result<Bytes, NoMemory>
    ensures { IfOk result (λ text. text ≡ header detail tests) }
{
    let mut text = Bytes::new(alloc);
    match detail {
        Detail::Quiet | Detail::Json => {}
        Detail::Whole | Detail::Verbose | Detail::Plain => {
            text.append(b"-- Testing: ")?;
            add_number(&mut text, tests)?;
            text.append(b" tests --\n")?;
        }
    }
    Ok(text)
}
