//! Why two reports aren't compared.
ghost use Rattle.std.specs.Prelude.{◌≡◌, ◌≤◌, ◌++◌, IfOk, OnOk, decimal, length};
ghost use Rattle.opt_words.specs.Step.{texts};
ghost use Rattle.report_changes.specs.Asked.{IsTold};
ghost use Rattle.report_changes.specs.Stop.{IsToldOf, kind_of, reason_of, refusal_text, status_of, text_of, unread_text};

use crate::asked::ChangesRefusal;
use itoa::Buffer;
use json_report::ReportFault;
use std::alloc::Global;
use tt_base::{Bytes, NoMemory};

/// Why a report has no tests.
#[derive(Clone, Copy, Debug, PartialEq, Eq)]
pub enum Unread {
    /// No file has the name.
    Missing,
    /// The file has too many bytes.
    TooLarge,
    /// The file couldn't be read.
    Failed,
    /// What it holds is no report.
    Bad(ReportFault),
}

/// Why two reports aren't compared.
#[derive(Clone, Copy, Debug, PartialEq, Eq)]
pub enum ChangesStop {
    Words(ChangesRefusal),
    /// A report by the index of the word that names it, and what is amiss.
    Report(usize, Unread),
}

/// The status of a stop.
pub(crate) fn status_of(stop: ChangesStop) -> u8
    ensures value { result ≡ status_of stop }
    ensures small { result ≤ 3 }
{
    match stop {
        ChangesStop::Report(_, Unread::Failed) => 3,
        _ => 2,
    }
}

/// The message of a stop.
pub(crate) fn text_of(alloc: Global, words: &[String], stop: ChangesStop) -> Result<Bytes, NoMemory>
    requires { IsToldOf (length words.now) stop }
    ensures { IfOk result (λ text. text ≡ text_of (texts words.now) stop) }
{
    let reason = reason_of(alloc, words, stop)?;
    let mut text = Bytes::from_slice(alloc, b"lit_changes: error: ")?;
    text.append(reason.as_slice())?;
    text.append(b"\n")?;
    Ok(text)
}

/// What is amiss.
fn reason_of(alloc: Global, words: &[String], stop: ChangesStop) -> Result<Bytes, NoMemory>
    requires { IsToldOf (length words.now) stop }
    ensures { IfOk result (λ text. text ≡ reason_of (texts words.now) stop) }
{
    match stop {
        ChangesStop::Words(refusal) => refusal_text(alloc, words, refusal),
        ChangesStop::Report(word, unread) => unread_text(alloc, words[word].as_bytes(), unread),
    }
}

/// Why the words are refused.
fn refusal_text(alloc: Global, words: &[String], refusal: ChangesRefusal) -> Result<Bytes, NoMemory>
    requires { IsTold (length words.now) refusal }
    ensures { IfOk result (λ text. text ≡ refusal_text (texts words.now) refusal) }
{
    match refusal {
        ChangesRefusal::FaultyWord(fault) => {
            named(
                alloc,
                fault.text_before(),
                fault.word(words),
                fault.text_behind(),
            )
        }
        ChangesRefusal::NotTwoReports => Bytes::from_slice(alloc, b"two reports are needed"),
    }
}

/// A name between two texts.
fn named(alloc: Global, before: &[u8], name: &[u8], behind: &[u8]) -> Result<Bytes, NoMemory>
    ensures { IfOk result (λ text. text ≡ before.now ++ name.now ++ behind.now) }
{
    let mut text = Bytes::from_slice(alloc, before)?;
    text.append(name)?;
    text.append(behind)?;
    Ok(text)
}

/// What is amiss with the report of a name.
fn unread_text(alloc: Global, name: &[u8], unread: Unread) -> Result<Bytes, NoMemory>
    ensures { IfOk result (λ text. text ≡ unread_text name.now unread) }
{
    match unread {
        Unread::Missing => named(alloc, b"'", name, b"' not found"),
        Unread::TooLarge => named(alloc, b"'", name, b"' is too large"),
        Unread::Failed => named(alloc, b"cannot read '", name, b"'"),
        Unread::Bad(fault) => {
            let mut text = named(alloc, b"bad report '", name, b"': ")?;
            add_kind(&mut text, fault)?;
            Ok(text)
        }
    }
}

/// Adds the name of a report's fault, with the place of its test.
fn add_kind(text: &mut Bytes, fault: ReportFault) -> Result<(), NoMemory>
    ensures { OnOk result (text.new ≡ text.old ++ kind_of fault) }
{
    match fault {
        ReportFault::NotJson => text.append(b"NotJson"),
        ReportFault::BadShape => text.append(b"BadShape"),
        ReportFault::BadVersion => text.append(b"BadVersion"),
        ReportFault::BadTest(place) => {
            text.append(b"BadTest ")?;
            add_number(text, place)
        }
        ReportFault::TwicePath(place) => {
            text.append(b"TwicePath ")?;
            add_number(text, place)
        }
        ReportFault::BadCounts => text.append(b"BadCounts"),
    }
}

/// Adds the digits of a number.
pub(crate) fn add_number(text: &mut Bytes, number: usize) -> Result<(), NoMemory>
    ensures { OnOk result (text.new ≡ text.old ++ decimal number) }
{
    let mut buffer = Buffer::new();
    text.append(buffer.format(number as u64).as_bytes())
}
