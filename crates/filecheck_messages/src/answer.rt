//! The table: what is told of each refusal, and of a verdict.
ghost use Rattle.std.specs.Prelude.{◌≡◌, ◌≤◌, ◌++◌, IfOk, OnOk};
ghost use Rattle.filecheck_messages.specs.Telling.{rest_text, rows_in};
ghost use Rattle.filecheck_messages.specs.Answer.{answer_to, body_text, line_text, made_row, make_text, regex_text, report_row, row_of, telling, text_of, text_row, verdict_row, with_dump, words_text};

use crate::dumped::Dumped;
use crate::finding::Finding;
use crate::message::{
    append_made, append_named, append_placed, append_told, append_too_long, append_unplaced,
};
use crate::refusal::{Refusal, Stop};
use crate::report::{Made, Report};
use crate::telling::{Rest, Telling, Text, no_text, pieces_alone, telling_of};
use check_lines::LineFault;
use ere_tree::EreKind;
use filecheck_words::WordsFault;
use make_checks::{MadeFile, MakeFault};
use pattern_parse::PatKind;
use std::alloc::Global;
use tt_base::NoMemory;
use tt_pieces::Pieces;

/// What is told of a run. Nothing of it is copied.
pub fn answer_to(alloc: Global, outcome: &Result<Report, Stop>) -> Result<Telling<'_>, NoMemory>
    ensures value { IfOk result (λ answer. answer ≡ answer_to outcome.now) }
    ensures small { IfOk result (λ answer. answer.status ≤ 3) }
{
    match outcome {
        Ok(report) => report_row(alloc, report),
        Err(stop) => row_of(alloc, stop),
    }
}

fn report_row(alloc: Global, report: &Report) -> Result<Telling<'_>, NoMemory>
    ensures value { IfOk result (λ answer. answer ≡ report_row report.now) }
    ensures small { IfOk result (λ answer. answer.status ≤ 3) }
{
    match report {
        Report::Found(findings, dumped) => found_row(alloc, findings.as_slice(), dumped),
        Report::Made(made) => made_row(alloc, *made),
        Report::Checks(file) => Ok(text_row(alloc, file)),
    }
}

/// The answer of a verdict, with the annotated input behind its messages.
#[tactic(auto, using(crate::proofs::AnswerLemmas::found_is))]
fn found_row<'a>(
    alloc: Global,
    findings: &'a [Finding],
    dumped: &'a Option<Dumped>,
) -> Result<Telling<'a>, NoMemory>
    ensures value { IfOk result (λ answer. answer ≡ with_dump (verdict_row findings.now) dumped.now) }
    ensures small { IfOk result (λ answer. answer.status ≤ 3) }
{
    let mut pieces = Pieces::new(alloc);
    append_told(&mut pieces, findings)?;
    let rest = rest_of(alloc, dumped)?;
    let status = verdict_status(findings);
    Ok(telling_of(alloc, no_text(alloc), Text { pieces, rest }, status))
}

/// The status of a verdict.
fn verdict_status(findings: &[Finding]) -> u8
    ensures value { result ≡ (verdict_row findings.now).status }
    ensures small { result ≤ 1 }
{
    if findings.is_empty() { 0 } else { 1 }
}

/// The answer of checks and an input that were made.
fn made_row<'a>(alloc: Global, made: Made) -> Result<Telling<'a>, NoMemory>
    ensures value { IfOk result (λ answer. answer ≡ made_row made) }
    ensures small { IfOk result (λ answer. answer.status ≤ 3) }
{
    let mut out = Pieces::new(alloc);
    append_made(&mut out, made)?;
    let status = if made.faults == 0 { 0 } else { 1 };
    Ok(telling_of(alloc, pieces_alone(out), no_text(alloc), status))
}

/// The answer of a check file that is made.
fn text_row(alloc: Global, file: &MadeFile) -> Telling<'_>
    ensures value { result ≡ text_row file.now }
    ensures small { result.status ≤ 3 }
{
    let out = Text {
        pieces: Pieces::new(alloc),
        rest: Rest::File(file),
    };
    telling_of(alloc, out, no_text(alloc), 0)
}

/// The annotated input, if there is one.
fn rest_of(alloc: Global, dumped: &Option<Dumped>) -> Result<Rest<'_>, NoMemory>
    ensures { IfOk result (λ rest. rest_text rest ≡ rows_in dumped.now) }
{
    match dumped {
        Some(dumped) => Ok(Rest::Rows(dumped.rows(alloc)?)),
        None => Ok(Rest::Nothing),
    }
}

fn row_of(alloc: Global, stop: &Stop) -> Result<Telling<'_>, NoMemory>
    ensures value { IfOk result (λ answer. answer ≡ row_of stop.now) }
    ensures small { IfOk result (λ answer. answer.status ≤ 3) }
{
    let mut err = Pieces::new(alloc);
    match stop {
        Stop::Refused(refusal) => {
            append_refusal(&mut err, refusal)?;
            Ok(message_alone(alloc, err, 2))
        }
        Stop::NotReadable(name) => {
            append_named(&mut err, b"cannot read '", name, b"'")?;
            Ok(message_alone(alloc, err, 3))
        }
    }
}

/// An answer that tells something on the error stream alone.
fn message_alone<'a>(alloc: Global, message: Pieces<'a>, status: u8) -> Telling<'a>
    ensures { result ≡ telling status message.entry }
{
    telling_of(alloc, no_text(alloc), pieces_alone(message), status)
}

/// The table.
fn append_refusal<'a>(text: &mut Pieces<'a>, refusal: &'a Refusal) -> Result<(), NoMemory>
    ensures { OnOk result (text.new ≡ text.old ++ text_of refusal.now) }
{
    match refusal {
        Refusal::Words(fault) => append_words(text, fault),
        Refusal::NotFound(name) => append_named(text, b"'", name, b"' not found"),
        Refusal::TooLarge(name) => append_named(text, b"'", name, b"' is too large"),
        Refusal::BadLine(fault, spot) => append_placed(text, spot, line_text(*fault)),
        Refusal::NoChecks(name) => append_named(text, b"no checks in '", name, b"'"),
        Refusal::UnusedPrefix(prefix) => {
            append_named(text, b"prefix '", prefix, b"' isn't used")
        }
        Refusal::BadBody(kind, spot) => append_placed(text, spot, body_text(*kind)),
        Refusal::BadDefine(value) => { append_named(text, b"bad definition '", value, b"'") }
        Refusal::IsEmpty(name) => append_named(text, b"'", name, b"' is empty"),
        Refusal::BadMake(fault) => append_make(text, *fault),
    }
}

/// Adds what is told of a check file that isn't made.
fn append_make(text: &mut Pieces<'_>, fault: MakeFault) -> Result<(), NoMemory>
    ensures { OnOk result (text.new ≡ text.old ++ make_text fault) }
{
    match fault {
        MakeFault::BadLead => append_unplaced(text, b"bad lead"),
        MakeFault::LineTooLong(line) => {
            text.append(b"filecheck: error: ")?;
            append_too_long(text, line)?;
            text.append(b"\n")
        }
        MakeFault::TooLarge => append_unplaced(text, b"check file would be too large"),
    }
}

/// Adds what is told of words.
fn append_words<'a>(text: &mut Pieces<'a>, fault: &'a WordsFault) -> Result<(), NoMemory>
    ensures { OnOk result (text.new ≡ text.old ++ words_text fault.now) }
{
    match fault {
        WordsFault::NotText => append_unplaced(text, b"a word isn't text"),
        WordsFault::Faulty(fault, word) => {
            append_named(text, fault.text_before(), word, fault.text_behind())
        }
        WordsFault::Misfit => append_unplaced(text, b"these options don't fit together"),
        WordsFault::NotOneFile => append_unplaced(text, b"one check file is needed"),
        WordsFault::BadPrefix(prefix) => { append_named(text, b"bad prefix '", prefix, b"'") }
        WordsFault::PrefixTwice(prefix) => {
            append_named(text, b"prefix '", prefix, b"' given twice")
        }
        WordsFault::BadImplicit(value) => { append_named(text, b"bad pattern '", value, b"'") }
    }
}

/// What is told of a line of the check file.
fn line_text(fault: LineFault) -> &'static [u8]
    ensures { result.now ≡ line_text fault }
{
    match fault {
        LineFault::BadCount => b"bad count",
        LineFault::NotCombination => b"NOT can't be combined",
        LineFault::BadModifier => b"bad modifier",
        LineFault::EmptyPattern => b"empty pattern",
        LineFault::NonEmptyForEmpty => b"EMPTY takes no pattern",
        LineFault::NoEarlierCheck => b"no earlier check",
    }
}

/// What is told of a body.
fn body_text(kind: PatKind) -> &'static [u8]
    ensures { result.now ≡ body_text kind }
{
    match kind {
        PatKind::TooLong => b"pattern too long",
        PatKind::NoRegexEnd => b"no '}}' for this regex",
        PatKind::NoBlockEnd => b"no ']]' for this block",
        PatKind::BadRegex(fault) => regex_text(fault.kind),
        PatKind::BadName => b"bad name",
        PatKind::BadFormat => b"bad format",
        PatKind::BadExpr => b"bad expression",
        PatKind::FormatConflict => b"formats differ",
        PatKind::SameLineNumber => b"number defined on the same line",
        PatKind::VariableInLabel => b"variable in a label",
        PatKind::TooManyReferences => b"more than nine references",
    }
}

/// What is told of a regular expression.
fn regex_text(kind: EreKind) -> &'static [u8]
    ensures { result.now ≡ regex_text kind }
{
    match kind {
        EreKind::EmptyAlternative => b"bad regex: EmptyAlternative",
        EreKind::RepeatOfNothing => b"bad regex: RepeatOfNothing",
        EreKind::BadBound => b"bad regex: BadBound",
        EreKind::UnclosedGroup => b"bad regex: UnclosedGroup",
        EreKind::StrayClose => b"bad regex: StrayClose",
        EreKind::UnclosedBracket => b"bad regex: UnclosedBracket",
        EreKind::BadRange => b"bad regex: BadRange",
        EreKind::UnknownClass => b"bad regex: UnknownClass",
        EreKind::UnsupportedBracket => b"bad regex: UnsupportedBracket",
        EreKind::BadReference => b"bad regex: BadReference",
        EreKind::TrailingBackslash => b"bad regex: TrailingBackslash",
        EreKind::TooLarge => b"bad regex: TooLarge",
        EreKind::TooDeep => b"bad regex: TooDeep",
    }
}
