//! Whether the input has what the check file asks for.
ghost use Rattle.std.specs.Prelude.{◌≡◌, ◌≤◌, ◌<◌, ◌^◌, ◌∷◌, ◌++◌, [], All, IfOk, IfSome, None, OnOk, length};
ghost use Rattle.check_group.specs.Changes.{IsReady};
ghost use Rattle.check_group.specs.Lies.{FaultLies, OffsetsLie};
ghost use Rattle.filecheck_tool.specs.CheckFile.{HasBodies, IsNumber};
ghost use Rattle.filecheck_tool.specs.Dump.{dump_with};
ghost use Rattle.filecheck_tool.specs.Program.{IsSound};
ghost use Rattle.filecheck_messages.specs.Refusal.{Gives, accepted};
ghost use Rattle.filecheck_tool.specs.Verdict.{LiesIn, both_notes, faults_of, filled, finding_of, findings_of, input_name, made_of, note_at, notes_of, one_note, report_of, told_times, verdict, verdict_read};
ghost use Rattle.tt_run.specs.Run.{IsShort};

use crate::check_file::{CheckFile, whole};
use crate::dumping::{marks_due, shown_by};
use crate::program::AcceptedFile;
use check_group::{Check, Fault, FaultKind};
use check_lines::{Kind, canon_owned, row_of};
use check_scan::{Subject, scan};
use ere_auto::Steps;
use filecheck_messages::{
    Dumped, Finding, Made, Note, Refusal, Remark, Report, StepFail, refuse, spot_in,
};
use filecheck_words::{Dump, Input};
use input_dump::Mark;
use pattern_vars::Vars;
use std::alloc::Global;
use std::marker::Brand;
use std::mem::drop;
use std::sync::ledger::{Blank, Ledger};
use tt_base::{Bytes, Items, NoMemory};
use tt_outside::SharedBytes;
use tt_run::Reading;

/// How the input is named.
pub(crate) fn input_name(input: &Input) -> &[u8]
    ensures { result.now ≡ input_name input.now }
{
    match input {
        Input::Standard => b"<stdin>",
        Input::Named(name) => name.as_slice(),
    }
}

/// What is told of what reading the input gave.
pub fn verdict_read(alloc: Global, program: AcceptedFile, read: Reading) -> Result<Report, StepFail>
    requires sound { IsSound program }
    requires short { IsShort (2 ^ 30) read }
    ensures { Gives (λ report. report) result (verdict_read program read) }
{
    let mut program = program;
    let told = verdict_of(alloc, &mut program, read);
    // A call, since a drop in place is proved field by field.
    drop(program);
    told
}

/// The same; what the input binds stays in the program.
fn verdict_of(alloc: Global, program: &mut AcceptedFile, read: Reading) -> Result<Report, StepFail>
    requires sound { IsSound program.old }
    requires short { IsShort (2 ^ 30) read }
    ensures { Gives (λ report. report) result (verdict_read program.old read) }
{
    let asked = &program.file.asked;
    let name = input_name(&asked.input);
    let bytes = whole(alloc, name, read)?;
    let bytes = filled(alloc, asked.allow_empty, name, bytes)?;
    let count = bytes.len() as u64;
    let input = canon_owned(bytes, asked.strict);
    Ok(verdict(alloc, program, count, input)?)
}

/// Bytes, of which there may be none or not.
pub(crate) fn filled(
    alloc: Global,
    allow: bool,
    name: &[u8],
    bytes: Bytes,
) -> Result<Bytes, StepFail>
    requires { length bytes ≤ 2 ^ 30 }
    ensures value { Gives (λ same. same) result (accepted (filled allow name.now bytes)) }
    ensures short { IfOk result (λ same. length same ≤ 2 ^ 30) }
{
    if bytes.is_empty() && !allow {
        return refuse(Refusal::IsEmpty(Bytes::from_slice(alloc, name)?));
    }
    Ok(bytes)
}

/// What is told of an input of so many bytes, by its canonical text.
fn verdict(
    alloc: Global,
    program: &mut AcceptedFile,
    count: u64,
    input: Bytes,
) -> Result<Report, NoMemory>
    requires sound { IsSound program.old }
    requires short { length input ≤ 2 ^ 30 }
    ensures { IfOk result (λ report. report ≡ verdict program.old count input) }
{
    let subject = Subject {
        alloc,
        text: input.as_slice(),
        always: program.always.as_slice(),
    };
    let scope = program.file.asked.var_scope;
    let faults = faults_in(
        &subject,
        program.checks.as_slice(),
        scope,
        &mut program.vars,
    )?;
    report_of(alloc, &program.file, count, input, faults)
}

/// What is told of faults.
fn report_of(
    alloc: Global,
    file: &CheckFile,
    count: u64,
    input: Bytes,
    faults: Items<Fault>,
) -> Result<Report, NoMemory>
    requires bodies { HasBodies file.now }
    requires short { length input ≤ 2 ^ 30 }
    requires lie { All (FaultLies (IsNumber file.now) (length input)) faults }
    ensures { IfOk result (λ report. report ≡ report_of file.now.made file.now count input faults) }
{
    match file.made {
        Some(checks) => Ok(Report::Made(made_of(checks, count, faults.as_slice()))),
        None => found_of(alloc, file, input, faults),
    }
}

/// The same of checks and an input that were read.
fn found_of(
    alloc: Global,
    file: &CheckFile,
    input: Bytes,
    faults: Items<Fault>,
) -> Result<Report, NoMemory>
    requires bodies { HasBodies file.now }
    requires short { length input ≤ 2 ^ 30 }
    requires lie { All (FaultLies (IsNumber file.now) (length input)) faults }
    ensures { IfOk result (λ report. report ≡ report_of None file.now 0 input faults) }
{
    let due = marks_due(alloc, file, faults.as_slice())?;
    let input = SharedBytes::new(alloc, input)?;
    let findings = findings_of(alloc, file, &input, faults)?;
    let dumped = dump_with(file.asked.dump, input, due);
    Ok(Report::Found(findings, dumped))
}

/// The annotated input with these marks, if there is one.
fn dump_with(asked: Dump, input: SharedBytes, due: Option<Items<Mark>>) -> Option<Dumped>
    requires short { length input ≤ 2 ^ 30 }
    requires within { IfSome due (All (λ mark. mark.at ≤ length input)) }
    ensures { result ≡ dump_with asked input due }
{
    match due {
        Some(marks) => Some(Dumped::new(input, marks, shown_by(asked))),
        None => None,
    }
}

/// The faults of directives in a canonical input.
fn faults_in(
    subject: &Subject<'_>,
    checks: &[Check],
    scope: bool,
    vars: &mut Vars,
) -> Result<Items<Fault>, NoMemory>
    requires ready { All (IsReady vars.old) checks.now }
    requires always_ready { All (IsReady vars.old) subject.now.always.now }
    ensures value { IfOk result (λ faults. faults ≡ faults_of checks.now subject.now scope vars.old) }
    ensures lie { IfOk result (All (LiesIn checks.now subject.now)) }
{
    faults_by::<Brand>(subject, checks, scope, vars, Blank::new(1))
}

fn faults_by<L: Ledger>(
    subject: &Subject<'_>,
    checks: &[Check],
    scope: bool,
    vars: &mut Vars,
    blank: Blank,
) -> Result<Items<Fault>, NoMemory>
    requires name { blank.name ≡ L.name }
    requires parts { blank.parts ≡ L.parts }
    requires some_part { 0 < blank.parts }
    requires ready { All (IsReady vars.old) checks.now }
    requires always_ready { All (IsReady vars.old) subject.now.always.now }
    ensures value { IfOk result (λ faults. faults ≡ faults_of checks.now subject.now scope vars.old) }
    ensures lie { IfOk result (All (LiesIn checks.now subject.now)) }
{
    let mut steps = Steps::<L>::new(blank);
    let verdict = scan(subject, checks, scope, vars, &mut steps)?;
    Ok(verdict.faults)
}

/// What is told of checks and an input that were made.
fn made_of(checks: u64, bytes: u64, faults: &[Fault]) -> Made
    ensures { result ≡ made_of checks bytes faults.now }
{
    Made {
        checks,
        bytes,
        faults: faults.len() as u64,
    }
}

/// What is told of faults, in order.
fn findings_of(
    alloc: Global,
    file: &CheckFile,
    input: &SharedBytes,
    faults: Items<Fault>,
) -> Result<Items<Finding>, NoMemory>
    requires bodies { HasBodies file.now }
    requires short { length input.now ≤ 2 ^ 30 }
    requires lie { All (FaultLies (IsNumber file.now) (length input.now)) faults }
    ensures { IfOk result (λ findings. findings ≡ findings_of file.now input.now faults) }
{
    let mut findings = Items::new(alloc);
    for fault in faults.into_vec() {
        findings.push(finding_of(alloc, file, input, fault)?)?;
    }
    Ok(findings)
}

fn finding_of(
    alloc: Global,
    file: &CheckFile,
    input: &SharedBytes,
    fault: Fault,
) -> Result<Finding, NoMemory>
    requires bodies { HasBodies file.now }
    requires short { length input.now ≤ 2 ^ 30 }
    requires lies { FaultLies (IsNumber file.now) (length input.now) fault }
    ensures { IfOk result (λ finding. finding ≡ finding_of file.now input.now fault) }
{
    Ok(Finding {
        name: file.name_of(alloc, fault.directive)?,
        times: told_times(file.kind_of(fault.directive)),
        check: file.body_spot(alloc, fault.directive)?,
        notes: notes_of(alloc, input_name(&file.asked.input), input, &fault.kind)?,
        fault: fault.kind,
    })
}

/// How many matches a kind asks for, where that is told.
fn told_times(kind: Kind) -> Option<u32>
    ensures { result ≡ told_times kind }
{
    let row = row_of(kind);
    if row.counted {
        Some(row.demand.times)
    } else {
        None
    }
}

/// The places in the input that are told with a fault.
fn notes_of(
    alloc: Global,
    name: &[u8],
    input: &SharedBytes,
    kind: &FaultKind,
) -> Result<Items<Note>, NoMemory>
    requires short { length input.now ≤ 2 ^ 30 }
    requires lies { OffsetsLie (length input.now) kind.now }
    ensures { IfOk result (λ notes. notes ≡ notes_of name.now input.now kind.now) }
{
    match kind {
        FaultKind::NotFound { from, .. } => {
            one_note(alloc, Remark::ScanningFrom, name, input, *from)
        }
        FaultKind::WrongLine { found, last, .. } => both_notes(alloc, name, input, *found, *last),
        FaultKind::NotSameLine { found, last } => both_notes(alloc, name, input, *found, *last),
        FaultKind::Excluded { found } => one_note(alloc, Remark::FoundHere, name, input, *found),
        FaultKind::Unreadable { found } => one_note(alloc, Remark::FoundHere, name, input, *found),
        FaultKind::Undefined(_) | FaultKind::Range | FaultKind::ZeroDivisor => {
            Ok(Items::new(alloc))
        }
    }
}

fn one_note(
    alloc: Global,
    remark: Remark,
    name: &[u8],
    input: &SharedBytes,
    at: usize,
) -> Result<Items<Note>, NoMemory>
    requires short { length input.now ≤ 2 ^ 30 }
    requires within { at ≤ length input.now }
    ensures { IfOk result (λ notes. notes ≡ one_note remark name.now input.now at) }
{
    let mut notes = Items::new(alloc);
    notes.push(note_at(alloc, remark, name, input, at)?)?;
    Ok(notes)
}

fn both_notes(
    alloc: Global,
    name: &[u8],
    input: &SharedBytes,
    found: usize,
    last: usize,
) -> Result<Items<Note>, NoMemory>
    requires short { length input.now ≤ 2 ^ 30 }
    requires found { found ≤ length input.now }
    requires last { last ≤ length input.now }
    ensures { IfOk result (λ notes. notes ≡ both_notes name.now input.now found last) }
{
    let mut notes = Items::new(alloc);
    notes.push(note_at(alloc, Remark::MatchWasHere, name, input, found)?)?;
    notes.push(note_at(alloc, Remark::PreviousEnded, name, input, last)?)?;
    Ok(notes)
}

/// A place in the input.
fn note_at(
    alloc: Global,
    remark: Remark,
    name: &[u8],
    input: &SharedBytes,
    at: usize,
) -> Result<Note, NoMemory>
    requires within { at ≤ length input.now }
    requires short { length input.now ≤ 2 ^ 30 }
    ensures { IfOk result (λ note. note ≡ note_at remark name.now input.now at) }
{
    Ok(Note {
        remark,
        spot: spot_in(alloc, name, input, at)?,
    })
}
