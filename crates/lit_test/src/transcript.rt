//! The text of a transcript, part by part.
ghost use Rattle.std.specs.Prelude.{◌≡◌, ◌++◌, OnOk};
ghost use Rattle.lit_test.specs.Transcript.{attempts_text, ended, ends_line, lines_text, note_text, notes_text, number_text, run_text, seen_text, status_text, stream_text, texts_on, told_text, unresolved_text};

use crate::names::cause_name;
use crate::text::Text;
use itoa::Buffer;
use lit_directives::RunLine;
use shell_play::{LackNote, Told};
use std::alloc::Global;
use test_plan::Cause;
use tt_base::NoMemory;
use tt_outside::SharedBytes;

fn ends_line(bytes: &[u8]) -> bool
    ensures { result ≡ ends_line bytes.now }
{
    if bytes.is_empty() {
        return false;
    }
    bytes[bytes.len() - 1] == b'\n'
}

/// Whether bytes behind a head end in a newline.
#[tactic(auto, using(crate::proofs::TextLemmas::ends_in_head, crate::proofs::TextLemmas::ends_in_bytes))]
fn both_end_line(head: &[u8], bytes: &[u8]) -> bool
    ensures { result ≡ ends_line (head.now ++ bytes.now) }
{
    if bytes.is_empty() {
        return ends_line(head);
    }
    ends_line(bytes)
}

/// Adds bytes behind a head, and a newline where they don't end in one.
#[tactic(auto, using(crate::proofs::TextLemmas::ended_whole, crate::proofs::TextLemmas::ended_newly))]
fn add_ended(text: &mut Text, head: &[u8], bytes: &[u8]) -> Result<(), NoMemory>
    ensures { OnOk result (text.new ≡ text.old ++ ended (head.now ++ bytes.now)) }
{
    text.append(head)?;
    text.append(bytes)?;
    if both_end_line(head, bytes) {
        return Ok(());
    }
    text.append(b"\n")
}

/// The same of bytes that others hold too.
#[tactic(auto, using(crate::proofs::TextLemmas::ended_whole, crate::proofs::TextLemmas::ended_newly))]
fn share_ended(
    alloc: Global,
    text: &mut Text,
    head: &[u8],
    bytes: &SharedBytes,
) -> Result<(), NoMemory>
    ensures { OnOk result (text.new ≡ text.old ++ ended (head.now ++ bytes.now)) }
{
    text.append(head)?;
    text.append_shared(alloc, bytes)?;
    if both_end_line(head, bytes.as_slice()) {
        return Ok(());
    }
    text.append(b"\n")
}

/// Adds a head and a number on a line.
fn add_number(text: &mut Text, head: &[u8], number: u32) -> Result<(), NoMemory>
    ensures { OnOk result (text.new ≡ text.old ++ number_text head.now number) }
{
    let mut buffer = Buffer::new();
    text.append(head)?;
    text.append(buffer.format(number).as_bytes())?;
    text.append(b"\n")
}

fn add_note(text: &mut Text, note: &LackNote) -> Result<(), NoMemory>
    ensures { OnOk result (text.new ≡ text.old ++ note_text note.now) }
{
    match note {
        LackNote::NoProgram(word) => add_ended(text, b"# no such program: ", word.as_slice()),
        LackNote::NoFile(path) => add_ended(text, b"# no such file: ", path.as_slice()),
        LackNote::NoWrite(path) => add_ended(text, b"# cannot write: ", path.as_slice()),
    }
}

fn add_notes(text: &mut Text, notes: &[LackNote]) -> Result<(), NoMemory>
    ensures { OnOk result (text.new ≡ text.old ++ notes_text notes.now) }
{
    for note in notes {
        add_note(text, note)?;
    }
    Ok(())
}

/// Adds the bytes of a stream behind a head, where it has any.
fn add_stream(
    alloc: Global,
    text: &mut Text,
    head: &[u8],
    bytes: &SharedBytes,
) -> Result<(), NoMemory>
    ensures { OnOk result (text.new ≡ text.old ++ stream_text head.now bytes.now) }
{
    if bytes.as_slice().is_empty() {
        return Ok(());
    }
    share_ended(alloc, text, head, bytes)
}

fn add_status(text: &mut Text, status: Option<u32>) -> Result<(), NoMemory>
    ensures { OnOk result (text.new ≡ text.old ++ status_text status) }
{
    match status {
        None => Ok(()),
        Some(status) => {
            if status == 0 {
                return Ok(());
            }
            add_number(text, b"# status: ", status)
        }
    }
}

/// Adds what a command lacked and wrote, and its status.
#[tactic(auto, unfolding(crate::specs::Transcript::told_text))]
fn add_told(alloc: Global, text: &mut Text, told: &Told) -> Result<(), NoMemory>
    ensures { OnOk result (text.new ≡ text.old ++ told_text told.now) }
{
    add_notes(text, told.notes.as_slice())?;
    add_stream(alloc, text, b"# output:\n", &told.out)?;
    add_stream(alloc, text, b"# errors:\n", &told.err)?;
    add_status(text, told.status)
}

/// Adds what the commands of a line did.
fn add_texts_on(alloc: Global, text: &mut Text, line: u32, told: &[Told]) -> Result<(), NoMemory>
    ensures { OnOk result (text.new ≡ text.old ++ texts_on line told.now) }
{
    for one in told {
        if one.line == line {
            add_told(alloc, text, one)?;
        }
    }
    Ok(())
}

/// Adds a RUN line.
#[tactic(auto, unfolding(crate::specs::Transcript::run_text))]
fn add_run(text: &mut Text, run: &RunLine) -> Result<(), NoMemory>
    ensures { OnOk result (text.new ≡ text.old ++ run_text run.now) }
{
    let mut buffer = Buffer::new();
    text.append(b"RUN: line ")?;
    text.append(buffer.format(run.line).as_bytes())?;
    add_ended(text, b": ", run.text.as_slice())
}

/// Adds the lines that began, each with its commands.
fn add_lines(
    alloc: Global,
    text: &mut Text,
    runs: &[RunLine],
    began: u32,
    told: &[Told],
) -> Result<(), NoMemory>
    ensures { OnOk result (text.new ≡ text.old ++ lines_text 0 runs.now began told.now) }
{
    let mut line: u32 = 0;
    let mut left = runs;
    while let Some((run, behind)) = left.split_first() {
        if line >= began {
            return Ok(());
        }
        add_run(text, run)?;
        add_texts_on(alloc, text, line, told)?;
        line += 1;
        left = behind;
    }
    Ok(())
}

fn add_attempts(text: &mut Text, attempts: u32) -> Result<(), NoMemory>
    ensures { OnOk result (text.new ≡ text.old ++ attempts_text attempts) }
{
    if attempts <= 1 {
        return Ok(());
    }
    add_number(text, b"# attempts: ", attempts)
}

/// Adds what is seen of a test's attempts: how many began, and the last one's lines that began, with their commands.
pub(crate) fn add_seen(
    alloc: Global,
    text: &mut Text,
    runs: &[RunLine],
    attempts: u32,
    began: u32,
    told: &[Told],
) -> Result<(), NoMemory>
    ensures { OnOk result (text.new ≡ text.old ++ seen_text runs.now attempts began told.now) }
{
    add_attempts(text, attempts)?;
    add_lines(alloc, text, runs, began, told)
}

/// Adds why a test is unresolved.
pub(crate) fn add_unresolved(text: &mut Text, cause: Cause) -> Result<(), NoMemory>
    ensures { OnOk result (text.new ≡ text.old ++ unresolved_text cause) }
{
    text.append(b"# unresolved: ")?;
    text.append(cause_name(cause))?;
    text.append(b"\n")
}
