//! A check file: its text and its directives.
ghost use Rattle.std.specs.Prelude.{◌≡◌, ◌≤◌, ◌-◌, ◌^◌, [], All, Contains, IfOk, IfSome, None, Some, length, slice_get, slice_index_or};
ghost use Rattle.check_lines.specs.Checks.{IsPlaced};
ghost use Rattle.filecheck_tool.specs.CheckFile.{GivesFile, HasBodies, IsNumber, body_spot, check_file_in, check_file_read, implicit_spot, kind_of, name_by, name_of, refusal_at, start_behind, whole};
ghost use Rattle.filecheck_messages.specs.Refusal.{Gives, accepted};
ghost use Rattle.filecheck_messages.specs.Spot.{spot_at};
ghost use Rattle.tt_run.specs.Run.{IsShort};

use crate::start::Start;
use check_lines::{
    CheckFail, CheckFault, CheckKind, Directive, FileRules, Kind, canon_owned, read_checks, row_of,
};
use filecheck_messages::{
    Refusal, Spot, StepFail, Stop, TextPart, as_col, refuse, spot_at, spot_of,
};
use filecheck_words::Asked;
use std::alloc::Global;
use std::mem::drop;
use tt_base::{Bytes, Items, NoMemory, Place};
use tt_run::Reading;

/// A check file whose lines were accepted.
#[derive(Drop, Debug)]
pub struct CheckFile {
    /// What the words ask for.
    pub asked: Asked,
    /// How many checks it has, where it was made and not read.
    pub made: Option<u64>,
    /// Its canonical text.
    pub text: Bytes,
    /// Its directives, whose bodies lie in the text.
    pub directives: Items<Directive>,
}

/// The bytes that reading gave.
pub fn whole(alloc: Global, name: &[u8], reading: Reading) -> Result<Bytes, StepFail>
    requires { IsShort (2 ^ 30) reading }
    ensures value { Gives (λ bytes. bytes) result (whole name.now reading) }
    ensures short { IfOk result (λ bytes. length bytes ≤ 2 ^ 30) }
{
    let name = Bytes::from_slice(alloc, name)?;
    match reading {
        Reading::Whole(bytes) => Ok(bytes),
        Reading::Missing => refuse(Refusal::NotFound(name)),
        Reading::TooLarge => refuse(Refusal::TooLarge(name)),
        Reading::Failed => Err(StepFail::Stopped(Stop::NotReadable(name))),
    }
}

/// The check file that reading gave.
pub fn check_file_read(alloc: Global, start: Start, file: Reading) -> Result<CheckFile, StepFail>
    requires { IsShort (2 ^ 30) file }
    ensures value { Gives (λ file. file) result (check_file_read start file) }
    ensures bodies { IfOk result HasBodies }
    ensures begun { IfOk result (λ file. start_behind file ≡ start) }
{
    match whole(alloc, start.asked.name.as_slice(), file) {
        Ok(bytes) => {
            let text = canon_owned(bytes, start.asked.strict);
            check_file_in(alloc, start, text)
        }
        Err(fail) => {
            drop(start);
            Err(fail)
        }
    }
}

/// The check file of a canonical text.
fn check_file_in(alloc: Global, start: Start, text: Bytes) -> Result<CheckFile, StepFail>
    requires { length text ≤ 2 ^ 30 }
    ensures value { Gives (λ file. file) result (accepted (check_file_in start text)) }
    ensures bodies { IfOk result HasBodies }
    ensures begun { IfOk result (λ file. start_behind file ≡ start) }
{
    match directives_of(alloc, &start, text.as_slice()) {
        Ok(directives) => Ok(CheckFile {
            asked: start.asked,
            made: start.made,
            text,
            directives,
        }),
        Err(fail) => {
            // A call, since a drop in place is proved field by field.
            drop(start);
            Err(fail)
        }
    }
}

/// The directives of a canonical text.
fn directives_of(alloc: Global, start: &Start, text: &[u8]) -> Result<Items<Directive>, StepFail>
    requires { length text.now ≤ 2 ^ 30 }
    ensures value { GivesFile start.now text.now result }
    ensures placed { IfOk result (All (IsPlaced text.now (length start.now.asked.prefixes.checks))) }
{
    let asked = &start.asked;
    let rules = FileRules {
        checks: asked.prefixes.checks.as_slice(),
        comments: asked.prefixes.comments.as_slice(),
        allow_unused: asked.allow_unused,
        keep_blanks: asked.strict && asked.full_lines,
        may_lack: asked.may_lack,
    };
    match read_checks(alloc, &rules, text) {
        Ok(directives) => Ok(directives),
        Err(CheckFail::Bad(fault)) => refuse(refusal_of(
            alloc,
            asked.name.as_slice(),
            text,
            rules.checks,
            fault,
        )?),
        Err(CheckFail::NoMemory) => Err(StepFail::NoMemory),
    }
}

/// A refusal of the check file.
fn refusal_of(
    alloc: Global,
    name: &[u8],
    text: &[u8],
    prefixes: &[Bytes],
    fault: CheckFault,
) -> Result<Refusal, NoMemory>
    requires within { fault.at ≤ length text.now }
    requires small { length text.now ≤ 2 ^ 30 }
    ensures { IfOk result (λ refusal. refusal ≡ refusal_at prefixes.now name.now text.now fault) }
{
    let spot = spot_at(alloc, name, text, fault.at)?;
    match fault.kind {
        CheckKind::Line(fault) => Ok(Refusal::BadLine(fault, spot)),
        CheckKind::NoChecks => Ok(Refusal::NoChecks(spot.name)),
        CheckKind::UnusedPrefix(index) => Ok(Refusal::UnusedPrefix(Bytes::from_slice(
            alloc,
            bytes_at(prefixes, index),
        )?)),
    }
}

/// The bytes of a number, or none past the last.
fn bytes_at(all: &[Bytes], index: usize) -> &[u8]
    ensures { result.now ≡ slice_index_or all.now index [] }
{
    match all.get(index) {
        Some(bytes) => bytes.as_slice(),
        None => b"",
    }
}

/// The directive of a number among those of lines, if it is one of these.
fn directive_at(directives: &[Directive], number: usize) -> Option<Directive>
    ensures value { result ≡ slice_get directives.now number }
    ensures among { IfSome result (Contains directives.now) }
    ensures past { result ≡ None → length directives.now ≤ number }
{
    directives.get(number).copied()
}

/// The name by which a directive of a line is told: its prefix with its suffix.
pub(crate) fn line_name(
    alloc: Global,
    file: &CheckFile,
    directive: Directive,
) -> Result<Bytes, NoMemory>
    requires { IsPlaced file.now.text (length file.now.asked.prefixes.checks) directive }
    ensures { IfOk result (λ name. name ≡ name_by file.now (Some directive)) }
{
    let prefix = &file.asked.prefixes.checks.as_slice()[directive.prefix];
    let mut name = Bytes::from_slice(alloc, prefix.as_slice())?;
    name.append(row_of(directive.kind).suffix)?;
    Ok(name)
}

/// Where the body of a directive begins.
fn line_spot(alloc: Global, file: &CheckFile, directive: Directive) -> Result<Spot, NoMemory>
    requires small { length file.now.text ≤ 2 ^ 30 }
    requires placed { IsPlaced file.now.text (length file.now.asked.prefixes.checks) directive }
    ensures { IfOk result (λ it. it ≡ spot_at file.now.asked.name file.now.text directive.body.from) }
{
    let place = Place {
        line: directive.line,
        col: directive.col,
    };
    spot_of(
        alloc,
        file.asked.name.as_slice(),
        file.text.as_slice(),
        directive.body.from,
        place,
    )
}

/// The body of an implicit directive, by its place among them from 0.
fn implicit_spot(alloc: Global, body: &[u8], index: usize) -> Result<Spot, NoMemory>
    ensures { IfOk result (λ spot. spot ≡ implicit_spot body.now index) }
{
    Ok(Spot {
        name: Bytes::from_slice(alloc, b"<implicit-check-not>")?,
        place: Place {
            line: as_col(index).saturating_add(1),
            col: 1,
        },
        line: TextPart::copied(alloc, body)?,
    })
}

impl CheckFile {
    /// Where the body of a directive begins, by its number; the implicit ones are behind those of lines.
    pub(crate) fn body_spot(&self, alloc: Global, number: usize) -> Result<Spot, NoMemory>
        requires bodies { HasBodies self.now }
        requires number { IsNumber self.now number }
        ensures { IfOk result (λ spot. spot ≡ body_spot self.now number) }
    {
        match directive_at(self.directives.as_slice(), number) {
            Some(directive) => line_spot(alloc, self, directive),
            None => {
                let index = number - self.directives.len();
                let body = self.asked.implicit.as_slice()[index].as_slice();
                implicit_spot(alloc, body, index)
            }
        }
    }

    /// The kind of a directive, by its number.
    pub(crate) fn kind_of(&self, number: usize) -> Kind
        ensures { result ≡ kind_of self.now number }
    {
        match directive_at(self.directives.as_slice(), number) {
            Some(directive) => directive.kind,
            None => Kind::Not,
        }
    }

    /// The name by which a directive is told, by its number: its prefix with its suffix.
    pub(crate) fn name_of(&self, alloc: Global, number: usize) -> Result<Bytes, NoMemory>
        requires { HasBodies self.now }
        ensures { IfOk result (λ name. name ≡ name_of self.now number) }
    {
        match directive_at(self.directives.as_slice(), number) {
            Some(directive) => line_name(alloc, self, directive),
            None => Bytes::from_slice(alloc, b"IMPLICIT-CHECK-NOT"),
        }
    }
}
