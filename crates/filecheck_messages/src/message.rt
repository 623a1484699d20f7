//! The messages of FileCheck, piece by piece.
ghost use Rattle.std.specs.Prelude.{◌≡◌, ◌++◌, OnOk, codes};
ghost use Rattle.std.specs.Fmt.{decimal};
ghost use Rattle.std.specs.List.{flat_map};
ghost use Rattle.filecheck_messages.specs.Message.{behind_comma, fault_text, line_below, listed, made_text, missing_text, names_text, note_text, notes_text, place_text, placed, remark_text, told, told_of, unplaced, wrong_line_text, wrong_text};

use crate::finding::{Finding, Note, Remark};
use crate::report::Made;
use crate::spot::Spot;
use check_group::FaultKind;
use tt_base::{Bytes, NoMemory};
use tt_pieces::Pieces;

/// Adds what is told of findings, in order.
pub(crate) fn append_told<'a>(
    text: &mut Pieces<'a>,
    findings: &'a [Finding],
) -> Result<(), NoMemory>
    ensures { OnOk result (text.new ≡ text.old ++ told findings.now) }
{
    for finding in findings {
        append_told_of(text, finding)?;
    }
    Ok(())
}

fn append_told_of<'a>(text: &mut Pieces<'a>, finding: &'a Finding) -> Result<(), NoMemory>
    ensures { OnOk result (text.new ≡ text.old ++ told_of finding.now) }
{
    append_place(text, &finding.check)?;
    append_wrong(text, finding)?;
    append_line_below(text, &finding.check)?;
    append_notes(text, finding.notes.as_slice())
}

/// Adds a directive by its name, and what is wrong with it.
fn append_wrong<'a>(text: &mut Pieces<'a>, finding: &'a Finding) -> Result<(), NoMemory>
    ensures { OnOk result (text.new ≡ text.old ++ wrong_text finding.now) }
{
    text.append(b"error: ")?;
    text.append(finding.name.as_slice())?;
    text.append(b": ")?;
    append_fault(text, finding.times, &finding.fault)
}

/// Adds what is wrong with a directive, of which so many matches are asked for where that is told.
fn append_fault<'a>(
    text: &mut Pieces<'a>,
    times: Option<u32>,
    fault: &'a FaultKind,
) -> Result<(), NoMemory>
    ensures { OnOk result (text.new ≡ text.old ++ fault_text times fault.now) }
{
    match fault {
        FaultKind::NotFound { done, .. } => append_missing(text, times, *done),
        FaultKind::WrongLine { newlines, .. } => text.append(wrong_line_text(*newlines)),
        FaultKind::NotSameLine { .. } => text.append(b"is not on the same line as previous match"),
        FaultKind::Excluded { .. } => text.append(b"excluded string found in input"),
        FaultKind::Undefined(names) => append_names(text, names.as_slice()),
        FaultKind::Range => text.append(b"numeric value out of range"),
        FaultKind::ZeroDivisor => text.append(b"division by zero"),
        FaultKind::Unreadable { .. } => text.append(b"matched number out of range"),
    }
}

/// What is wrong with a match that isn't on the next line.
fn wrong_line_text(newlines: u64) -> &'static [u8]
    ensures { result.now ≡ wrong_line_text newlines }
{
    if newlines == 0 {
        b"is on the same line as previous match"
    } else {
        b"is not on the line after the previous match"
    }
}

fn append_names<'a>(text: &mut Pieces<'a>, names: &'a [Bytes]) -> Result<(), NoMemory>
    ensures { OnOk result (text.new ≡ text.old ++ names_text names.now) }
{
    text.append(b"uses undefined variables: ")?;
    append_listed(text, names)
}

/// Adds names with commas between them.
fn append_listed<'a>(text: &mut Pieces<'a>, names: &'a [Bytes]) -> Result<(), NoMemory>
    ensures { OnOk result (text.new ≡ text.old ++ listed names.now) }
{
    match names.split_first() {
        Some((name, later)) => {
            text.append(name.as_slice())?;
            append_later(text, later)
        }
        None => Ok(()),
    }
}

fn append_later<'a>(text: &mut Pieces<'a>, names: &'a [Bytes]) -> Result<(), NoMemory>
    ensures { OnOk result (text.new ≡ text.old ++ flat_map behind_comma names.now) }
{
    for name in names {
        text.append(b", ")?;
        text.append(name.as_slice())?;
    }
    Ok(())
}

/// Adds what is told where `done` matches are found, and not all that are asked for.
fn append_missing(text: &mut Pieces<'_>, times: Option<u32>, done: u32) -> Result<(), NoMemory>
    ensures { OnOk result (text.new ≡ text.old ++ missing_text times done) }
{
    text.append(b"expected string not found in input")?;
    if let Some(times) = times {
        text.append(b" (")?;
        text.append_number(u64::from(done))?;
        text.append(b" of ")?;
        text.append_number(u64::from(times))?;
        text.append(b" found)")?;
    }
    Ok(())
}

/// Adds what is told of places in the input, in order.
fn append_notes<'a>(text: &mut Pieces<'a>, notes: &'a [Note]) -> Result<(), NoMemory>
    ensures { OnOk result (text.new ≡ text.old ++ notes_text notes.now) }
{
    for note in notes {
        append_note(text, note)?;
    }
    Ok(())
}

fn append_note<'a>(text: &mut Pieces<'a>, note: &'a Note) -> Result<(), NoMemory>
    ensures { OnOk result (text.new ≡ text.old ++ note_text note.now) }
{
    append_place(text, &note.spot)?;
    text.append(remark_text(note.remark))?;
    append_line_below(text, &note.spot)
}

/// What is told of a place in the input.
fn remark_text(remark: Remark) -> &'static [u8]
    ensures { result.now ≡ remark_text remark }
{
    match remark {
        Remark::ScanningFrom => b"note: scanning from here",
        Remark::MatchWasHere => b"note: match was here",
        Remark::PreviousEnded => b"note: previous match ended here",
        Remark::FoundHere => b"note: found here",
    }
}

/// Adds a count behind what it is of.
fn append_count<'a>(text: &mut Pieces<'a>, what: &'a [u8], count: u64) -> Result<(), NoMemory>
    ensures { OnOk result (text.new ≡ text.old ++ (what.now ++ decimal count)) }
{
    text.append(what)?;
    text.append_number(count)
}

/// Adds what is told of checks and an input that were made.
pub(crate) fn append_made(text: &mut Pieces<'_>, made: Made) -> Result<(), NoMemory>
    ensures { OnOk result (text.new ≡ text.old ++ made_text made) }
{
    append_count(text, b"generated: checks ", made.checks)?;
    append_count(text, b", input bytes ", made.bytes)?;
    append_count(text, b", faults ", made.faults)?;
    text.append(b"\n")?;
    Ok(())
}

/// Adds what stands before a message at a spot.
fn append_place<'a>(text: &mut Pieces<'a>, spot: &'a Spot) -> Result<(), NoMemory>
    ensures { OnOk result (text.new ≡ text.old ++ place_text spot.now) }
{
    text.append(spot.name.as_slice())?;
    text.append(b":")?;
    text.append_number(u64::from(spot.place.line))?;
    text.append(b":")?;
    text.append_number(u64::from(spot.place.col))?;
    text.append(b": ")
}

/// Adds what stands behind it.
fn append_line_below<'a>(text: &mut Pieces<'a>, spot: &'a Spot) -> Result<(), NoMemory>
    ensures { OnOk result (text.new ≡ text.old ++ line_below spot.now) }
{
    text.append(b"\n")?;
    text.append(spot.line.as_slice())?;
    text.append(b"\n")?;
    text.append_blanks(spot.place.col.saturating_sub(1) as usize)?;
    text.append(b"^\n")
}

/// Adds a message of a line or a body, at a spot.
pub(crate) fn append_placed<'a>(
    text: &mut Pieces<'a>,
    spot: &'a Spot,
    what: &'a [u8],
) -> Result<(), NoMemory>
    ensures { OnOk result (text.new ≡ text.old ++ placed spot.now (codes "error: " ++ what.now)) }
{
    append_place(text, spot)?;
    text.append(b"error: ")?;
    text.append(what)?;
    append_line_below(text, spot)
}

/// Adds a message that is told of no place.
pub(crate) fn append_unplaced<'a>(text: &mut Pieces<'a>, what: &'a [u8]) -> Result<(), NoMemory>
    ensures { OnOk result (text.new ≡ text.old ++ unplaced what.now) }
{
    text.append(b"filecheck: error: ")?;
    text.append(what)?;
    text.append(b"\n")
}

/// Adds a name with what stands on both sides of it.
fn append_about<'a>(
    text: &mut Pieces<'a>,
    before: &'a [u8],
    name: &'a Bytes,
    behind: &'a [u8],
) -> Result<(), NoMemory>
    ensures { OnOk result (text.new ≡ text.old ++ (before.now ++ name.now ++ behind.now)) }
{
    text.append(before)?;
    text.append(name.as_slice())?;
    text.append(behind)
}

/// Adds a message about a name.
pub(crate) fn append_named<'a>(
    text: &mut Pieces<'a>,
    before: &'a [u8],
    name: &'a Bytes,
    behind: &'a [u8],
) -> Result<(), NoMemory>
    ensures { OnOk result (text.new ≡ text.old ++ unplaced (before.now ++ name.now ++ behind.now)) }
{
    text.append(b"filecheck: error: ")?;
    append_about(text, before, name, behind)?;
    text.append(b"\n")
}

/// Adds the line of an output that is too long.
pub(crate) fn append_too_long(text: &mut Pieces<'_>, line: u32) -> Result<(), NoMemory>
    ensures { OnOk result (text.new ≡ text.old ++ codes "line " ++ decimal line ++ codes " is too long") }
{
    text.append(b"line ")?;
    text.append_number(u64::from(line))?;
    text.append(b" is too long")
}
