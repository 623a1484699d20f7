//! What is told behind each message.
ghost use Rattle.std.specs.Prelude.{◌≤◌, ◌^◌, IfOk, IfSome, length};
ghost use Rattle.filecheck_tool.specs.Program.{IsSound};
ghost use Rattle.tt_run.specs.Run.{IsShort};

use crate::explained::copied;
use crate::note::{add_note, value_text};
use crate::program::program_of;
use check_group::{Check, Fault, FaultKind};
use check_hints::{faults_in, near_line, run_before, uses_in, wanted_by};
use check_lines::canon_owned;
use check_scan::Subject;
use filecheck_messages::{behind, spot_at};
use filecheck_tool::AcceptedFile;
use filecheck_words::Input;
use std::alloc::Global;
use std::mem::drop;
use tt_base::{Bytes, Items, NoMemory, Span};
use tt_run::Reading;

/// How many messages have notes.
const MOST_NOTED: usize = 20;

/// What is told behind a message of `filecheck`.
#[derive(Drop, Debug)]
pub(crate) struct Noted {
    /// How many lines the message has.
    pub(crate) lines: usize,
    pub(crate) notes: Bytes,
}

/// What is found amiss in an input.
#[derive(Drop)]
struct Found {
    /// The canonical text of the input.
    input: Bytes,
    faults: Items<Fault>,
}

/// What is told behind each message, in order, where an input that was read doesn't match.
pub(crate) fn notes_on(
    alloc: Global,
    words: &[String],
    file: &Reading,
    read: &Reading,
) -> Result<Vec<Noted>, NoMemory>
    requires file { IsShort (2 ^ 30) file.now }
    requires read { IsShort (2 ^ 30) read.now }
{
    let Reading::Whole(bytes) = read else {
        return Ok(Vec::new(alloc));
    };
    match found_in(alloc, words, file, bytes.as_slice())? {
        Some(found) => notes_of(alloc, words, file, &found),
        None => Ok(Vec::new(alloc)),
    }
}

/// What is found amiss in an input, if it is checked by a check file that was read.
fn found_in(
    alloc: Global,
    words: &[String],
    file: &Reading,
    bytes: &[u8],
) -> Result<Option<Found>, NoMemory>
    requires file { IsShort (2 ^ 30) file.now }
    requires read { length bytes.now ≤ 2 ^ 30 }
    ensures { IfOk result (λ found. IfSome found (λ found. length found.input ≤ 2 ^ 30)) }
{
    let Some(mut program) = program_of(alloc, words, copied(alloc, file)?)? else {
        return Ok(None);
    };
    let found = found_by(alloc, &mut program, bytes);
    // A call, since a drop in place is proved field by field.
    drop(program);
    Ok(Some(found?))
}

fn found_by(alloc: Global, program: &mut AcceptedFile, bytes: &[u8]) -> Result<Found, NoMemory>
    requires sound { IsSound program.old }
    requires read { length bytes.now ≤ 2 ^ 30 }
    ensures { IfOk result (λ found. length found.input ≤ 2 ^ 30) }
{
    let input = canon_owned(Bytes::from_slice(alloc, bytes)?, program.file.asked.strict);
    let faults = if program.file.made.is_some() {
        Items::new(alloc)
    } else {
        program_faults(alloc, program, input.as_slice())?
    };
    Ok(Found { input, faults })
}

/// What the directives of a program find amiss in an input.
fn program_faults(
    alloc: Global,
    program: &mut AcceptedFile,
    input: &[u8],
) -> Result<Items<Fault>, NoMemory>
    requires { IsSound program.old }
{
    let subject = Subject {
        alloc,
        text: input,
        always: program.always.as_slice(),
    };
    let scope = program.file.asked.var_scope;
    faults_in(
        &subject,
        program.checks.as_slice(),
        scope,
        &mut program.vars,
    )
}

/// What is told behind the message of each fault.
fn notes_of(
    alloc: Global,
    words: &[String],
    file: &Reading,
    found: &Found,
) -> Result<Vec<Noted>, NoMemory>
    requires file { IsShort (2 ^ 30) file.now }
    requires input { length found.now.input ≤ 2 ^ 30 }
{
    let mut all = Vec::new(alloc);
    for (index, fault) in found.faults.as_slice().iter().enumerate() {
        let notes = if index < MOST_NOTED {
            fault_notes(alloc, words, file, found.input.as_slice(), fault)?
        } else {
            Bytes::new(alloc)
        };
        let lines = lines_of(&fault.kind);
        match all.push(Noted { lines, notes }) {
            Ok(()) => {}
            Err(_) => return Err(NoMemory),
        }
    }
    Ok(all)
}

/// How many lines the message of a fault has: three, and three for each place in the input.
fn lines_of(kind: &FaultKind) -> usize {
    match kind {
        FaultKind::WrongLine { .. } | FaultKind::NotSameLine { .. } => 9,
        FaultKind::NotFound { .. } | FaultKind::Excluded { .. } | FaultKind::Unreadable { .. } => 6,
        FaultKind::Undefined(_) | FaultKind::Range | FaultKind::ZeroDivisor => 3,
    }
}

/// What is told of a fault.
fn fault_notes(
    alloc: Global,
    words: &[String],
    file: &Reading,
    input: &[u8],
    fault: &Fault,
) -> Result<Bytes, NoMemory>
    requires file { IsShort (2 ^ 30) file.now }
    requires input { length input.now ≤ 2 ^ 30 }
{
    let mut notes = Bytes::new(alloc);
    let Some(mut program) = program_of(alloc, words, copied(alloc, file)?)? else {
        return Ok(notes);
    };
    let told = add_notes(alloc, &mut program, input, fault, &mut notes);
    // A call, since a drop in place is proved field by field.
    drop(program);
    told?;
    Ok(notes)
}

/// The place of a directive of lines among the checks, by its number.
fn check_at(checks: &[Check], number: usize) -> Option<usize> {
    checks.iter().position(|check| check.number == number)
}

/// Adds what is told of a fault; nothing where its directive is of no line.
fn add_notes(
    alloc: Global,
    program: &mut AcceptedFile,
    input: &[u8],
    fault: &Fault,
    notes: &mut Bytes,
) -> Result<(), NoMemory>
    requires sound { IsSound program.old }
    requires input { length input.now ≤ 2 ^ 30 }
{
    let Some(at) = check_at(program.checks.as_slice(), fault.directive) else {
        return Ok(());
    };
    let scope = program.file.asked.var_scope;
    let checks = program.checks.as_slice();
    let end = run_before(alloc, checks, scope, &mut program.vars, input, at)?;
    add_values(alloc, program, fault.directive, notes)?;
    match fault.kind {
        FaultKind::NotFound { from, .. } => {
            let part = Span {
                from: from.min(end),
                to: end,
            };
            add_near(alloc, program, at, input, part, notes)
        }
        _ => Ok(()),
    }
}

/// Adds the value of each name that a directive uses, or that it has none.
fn add_values(
    alloc: Global,
    program: &AcceptedFile,
    number: usize,
    notes: &mut Bytes,
) -> Result<(), NoMemory>
    requires { length program.now.file.text ≤ 2 ^ 30 }
{
    let file = &program.file;
    let Some(directive) = file.directives.as_slice().get(number) else {
        return Ok(());
    };
    if directive.literal {
        return Ok(());
    }
    let text = file.text.as_slice();
    let to = directive.body.to.min(text.len());
    let from = directive.body.from.min(to);
    for one in uses_in(alloc, &text[from..to], &program.vars)?.as_slice() {
        let spot = spot_at(alloc, file.asked.name.as_slice(), text, from)?;
        let what = value_text(alloc, one, &program.vars)?;
        add_note(alloc, &behind(spot, one.at), what.as_slice(), notes)?;
    }
    Ok(())
}

/// Adds the line of a part of the input that may have been meant, if there is one.
fn add_near(
    alloc: Global,
    program: &AcceptedFile,
    at: usize,
    input: &[u8],
    part: Span,
    notes: &mut Bytes,
) -> Result<(), NoMemory>
    requires within { part.to ≤ length input.now }
    requires input { length input.now ≤ 2 ^ 30 }
{
    let Some(check) = program.checks.as_slice().get(at) else {
        return Ok(());
    };
    let mut wanted = wanted_by(alloc, &check.pattern, &program.vars)?;
    let Some(start) = near_line(&mut wanted, &input[part.from..part.to]) else {
        return Ok(());
    };
    let name = match &program.file.asked.input {
        Input::Standard => b"<stdin>".as_slice(),
        Input::Named(name) => name.as_slice(),
    };
    let spot = spot_at(alloc, name, input, part.from + start)?;
    add_note(alloc, &spot, b"possible intended match here", notes)
}
