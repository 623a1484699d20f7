//! The answer of `filecheck` in parts, with notes behind them.
ghost use Rattle.std.specs.Prelude.{◌≡◌, ◌≤◌, ◌^◌, IfOk, length};
ghost use Rattle.std.specs.List.{flat_map};
ghost use Rattle.check_explain.specs.Explained.{Explains, all_in, plain, told_in, whole};
ghost use Rattle.filecheck_tool.specs.Answer.{IsAnswer};
ghost use Rattle.filecheck_words.specs.Job.{asked_by};
ghost use Rattle.opt_words.specs.Step.{texts};
ghost use Rattle.tt_run.specs.Run.{IsShort};

use crate::noted::{Noted, notes_on};
use filecheck_tool::answer_on;
use std::alloc::Global;
use tt_base::{Bytes, Items, NoMemory};
use tt_run::{Answer, Reading};

/// A part of what `filecheck` tells on the error stream.
#[derive(Drop, Debug)]
pub struct ExplainedPart {
    /// What `filecheck` tells.
    pub told: Bytes,
    /// What explains it.
    pub notes: Bytes,
}

/// The answer of `filecheck`, with what explains it.
#[derive(Drop, Debug)]
pub struct Explained {
    pub out: Bytes,
    /// What is told on the error stream, in order.
    pub parts: Items<ExplainedPart>,
    pub status: u8,
}

/// The answer to words with what explains it, where this is what reading the check file and the input gave.
pub fn explain_on(
    alloc: Global,
    words: &[String],
    file: &Reading,
    read: &Reading,
) -> Result<Explained, NoMemory>
    requires file { IsShort (2 ^ 30) file.now }
    requires read { IsShort (2 ^ 30) read.now }
    ensures value { IfOk result (Explains (asked_by (texts words.now)) file.now read.now) }
    ensures small { IfOk result (λ explained. explained.status ≤ 3) }
{
    let answer = answer_given(alloc, words, file, read)?;
    let notes = notes_due(alloc, words, file, read, answer.status)?;
    woven(alloc, answer, notes)
}

/// What is told behind each message of an answer with a status: nothing unless it is 1.
fn notes_due(
    alloc: Global,
    words: &[String],
    file: &Reading,
    read: &Reading,
    status: u8,
) -> Result<Vec<Noted>, NoMemory>
    requires file { IsShort (2 ^ 30) file.now }
    requires read { IsShort (2 ^ 30) read.now }
{
    if status == 1 {
        notes_on(alloc, words, file, read)
    } else {
        Ok(Vec::new(alloc))
    }
}

/// The answer of `filecheck`.
fn answer_given(
    alloc: Global,
    words: &[String],
    file: &Reading,
    read: &Reading,
) -> Result<Answer, NoMemory>
    requires file { IsShort (2 ^ 30) file.now }
    requires read { IsShort (2 ^ 30) read.now }
    ensures value { IfOk result (IsAnswer (asked_by (texts words.now)) file.now read.now) }
    ensures small { IfOk result (λ answer. answer.status ≤ 3) }
{
    let file = copied(alloc, file)?;
    let read = copied(alloc, read)?;
    answer_on(alloc, words, file, read)
}

/// What reading gave, once more.
pub(crate) fn copied(alloc: Global, reading: &Reading) -> Result<Reading, NoMemory>
    ensures { IfOk result (λ copy. copy ≡ reading.now) }
{
    match reading {
        Reading::Whole(bytes) => Ok(Reading::Whole(Bytes::from_slice(alloc, bytes.as_slice())?)),
        Reading::Missing => Ok(Reading::Missing),
        Reading::TooLarge => Ok(Reading::TooLarge),
        Reading::Failed => Ok(Reading::Failed),
    }
}

/// An answer with its notes.
fn woven(alloc: Global, answer: Answer, notes: Vec<Noted>) -> Result<Explained, NoMemory>
    ensures value { IfOk result (λ explained. plain explained ≡ answer) }
    ensures status { IfOk result (λ explained. explained.status ≡ answer.status) }
{
    let parts = parts_of(alloc, answer.err.as_slice(), notes)?;
    Ok(Explained {
        out: answer.out,
        parts,
        status: answer.status,
    })
}

/// A text in parts, each with its notes; what is left has none.
fn parts_of(alloc: Global, text: &[u8], notes: Vec<Noted>) -> Result<Items<ExplainedPart>, NoMemory>
    ensures { IfOk result (λ parts. flat_map told_in parts ≡ text.now) }
{
    let mut parts = Items::new(alloc);
    let mut rest = text;
    for noted in notes {
        let (told, later) = rest.split_at(lines_end(rest, noted.lines));
        parts.push(part_of(alloc, told, noted.notes)?)?;
        rest = later;
    }
    parts.push(part_of(alloc, rest, Bytes::new(alloc))?)?;
    Ok(parts)
}

fn part_of(alloc: Global, told: &[u8], notes: Bytes) -> Result<ExplainedPart, NoMemory>
    ensures { IfOk result (λ part. part.told ≡ told.now) }
{
    Ok(ExplainedPart {
        told: Bytes::from_slice(alloc, told)?,
        notes,
    })
}

/// Where so many lines of a text end; where it does, if there are fewer.
fn lines_end(text: &[u8], lines: usize) -> usize
    ensures { result ≤ length text.now }
{
    let mut left = lines;
    for (at, byte) in text.iter().enumerate() {
        if *byte == b'\n' {
            left = left.saturating_sub(1);
            if left == 0 {
                return at + 1;
            }
        }
    }
    text.len()
}

/// Parts with their notes, joined.
fn joined(alloc: Global, parts: &[ExplainedPart]) -> Result<Bytes, NoMemory>
    ensures { IfOk result (λ text. text ≡ flat_map all_in parts.now) }
{
    let mut text = Bytes::new(alloc);
    for part in parts {
        text.append(part.told.as_slice())?;
        text.append(part.notes.as_slice())?;
    }
    Ok(text)
}

impl Explained {
    /// The answer with its notes.
    pub(crate) fn whole(self, alloc: Global) -> Result<Answer, NoMemory>
        ensures { IfOk result (λ answer. answer ≡ whole self) }
    {
        let err = joined(alloc, self.parts.as_slice())?;
        Ok(Answer {
            out: self.out,
            err,
            status: self.status,
        })
    }
}
