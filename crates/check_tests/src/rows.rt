//! Rows of tests. A row is a line with six fields between `~`: options, a definition as `X=old`, an implicit NOT, a check
//! file, an input, and what is told. Newlines of files stand as `/`. Of options, `s` is for the scope of variables, `f`
//! for either case of letters, and `t` for whole lines.
ghost use Rattle.std.specs.Prelude.{◌≡◌, ◌<◌, ◌≤◌, ◌^◌, All, IfOk, length};
ghost use Rattle.check_group.specs.Changes.{IsReady};
ghost use Rattle.check_program.specs.Compiled.{EndsBy};
ghost use Rattle.check_program.specs.Ready.{IsScannable};

use crate::fields::{are_bytes, in_bytes};
use check_group::{Check, Fault, FaultKind};
use check_lines::{Directive, FileRules, read_checks};
use check_program::{CompileFail, CompileOpts, Program, compile};
use check_scan::{Subject, Verdict, scan};
use define_words::start_vars;
use ere_auto::Steps;
use pattern_parse::{Formats, Frame};
use pattern_vars::{Binding, Bindings, Vars};
use std::alloc::{AllocError, Global};
use std::marker::Brand;
use std::process::Abort;
use std::sync::ledger::{Blank, Ledger};
use tt_base::{Bytes, Items, NoMemory};

/// The bytes of a field that is a file.
fn file_of(alloc: Global, field: &str) -> Result<Bytes, NoMemory> {
    let mut bytes = Bytes::with_capacity(alloc, field.len())?;
    for byte in field.bytes() {
        bytes.append(&[if byte == b'/' { b'\n' } else { byte }])?;
    }
    Ok(bytes)
}

fn owned(alloc: Global, text: &str) -> Result<Bytes, NoMemory> {
    Bytes::from_slice(alloc, text.as_bytes())
}

/// A list of a text, unless it is empty.
fn one_or_none(alloc: Global, text: &str) -> Result<Items<Bytes>, NoMemory> {
    let mut all = Items::new(alloc);
    if !text.is_empty() {
        all.push(owned(alloc, text)?)?;
    }
    Ok(all)
}

/// What a definition gives.
fn given_of(alloc: Global, defined: &str) -> Result<Bindings, NoMemory> {
    let mut given = Items::new(alloc);
    if let Some((name, text)) = defined.split_once('=') {
        given.push(Binding::Text {
            name: owned(alloc, name)?,
            text: owned(alloc, text)?,
        })?;
    }
    Ok(given)
}

fn opts_of(options: &str) -> CompileOpts {
    let frame = if options.contains('t') {
        Frame::Tight
    } else {
        Frame::Open
    };
    CompileOpts {
        fold: options.contains('f'),
        frame,
    }
}

/// The directives of a check file with the prefix `CHECK`. A line that is refused counts as want of memory.
fn directives_of(alloc: Global, text: &[u8]) -> Result<Items<Directive>, NoMemory>
    requires { length text.now ≤ 2 ^ 30 }
    ensures { IfOk result (All (EndsBy (length text.now))) }
{
    let prefixes = one_or_none(alloc, "CHECK")?;
    let comments = Items::new(alloc);
    let rules = FileRules {
        checks: prefixes.as_slice(),
        comments: comments.as_slice(),
        allow_unused: true,
        keep_blanks: false,
        may_lack: true,
    };
    match read_checks(alloc, &rules, text) {
        Ok(directives) => Ok(directives),
        Err(_) => Err(NoMemory),
    }
}

/// The program of a check file, or the number of the directive that is refused, and the offset in its body. A file of more
/// than 1,000 bytes counts as want of memory.
fn program_of(
    alloc: Global,
    options: &str,
    implicit: &str,
    text: &[u8],
) -> Result<Result<Program, (usize, usize)>, NoMemory>
    ensures { IfOk result (λ told. IfOk told IsScannable) }
{
    if text.len() > 1000 {
        return Err(NoMemory);
    }
    let directives = directives_of(alloc, text)?;
    let implicit = one_or_none(alloc, implicit)?;
    let mut known = Formats::new(alloc);
    match compile(
        alloc,
        text,
        directives.as_slice(),
        implicit.as_slice(),
        &opts_of(options),
        &mut known,
    ) {
        Ok(program) => Ok(Ok(program)),
        Err(CompileFail::Bad { directive, fault }) => Ok(Err((directive, fault.at))),
        Err(CompileFail::NoMemory) => Err(NoMemory),
    }
}

fn scanned<L: Ledger>(
    subject: &Subject<'_>,
    checks: &[Check],
    scope: bool,
    vars: &mut Vars,
    blank: Blank,
) -> Result<Verdict, NoMemory>
    requires name { blank.name ≡ L.name }
    requires parts { blank.parts ≡ L.parts }
    requires some_part { 0 < blank.parts }
    requires ready { All (IsReady vars.old) checks.now }
    requires always_ready { All (IsReady vars.old) subject.now.always.now }
{
    let mut steps = Steps::<L>::new(blank);
    scan(subject, checks, scope, vars, &mut steps)
}

/// The faults of a program, and the variables that it leaves.
fn verdict_of(
    alloc: Global,
    program: Program,
    scope: bool,
    defined: &str,
    text: &[u8],
) -> Result<(Verdict, Vars), NoMemory>
    requires { IsScannable program }
{
    let Program {
        checks,
        always,
        names,
    } = program;
    let mut vars = start_vars(alloc, names, given_of(alloc, defined)?)?;
    let subject = Subject {
        alloc,
        text,
        always: always.as_slice(),
    };
    let blank = Blank::new(1);
    let verdict = scanned::<Brand>(&subject, checks.as_slice(), scope, &mut vars, blank)?;
    Ok((verdict, vars))
}

/// A fault in words, without its names.
fn fault_told(alloc: Global, fault: &Fault) -> Result<String, AllocError> {
    let n = fault.directive;
    match &fault.kind {
        FaultKind::NotFound { from, done } => {
            format!(in alloc; "{n} not found from {from}, {done} done")
        }
        FaultKind::WrongLine {
            found,
            last,
            newlines,
        } => format!(in alloc; "{n} wrong line {found} behind {last}, {newlines}"),
        FaultKind::NotSameLine { found, last } => {
            format!(in alloc; "{n} not same line {found} behind {last}")
        }
        FaultKind::Excluded { found } => format!(in alloc; "{n} excluded {found}"),
        FaultKind::Undefined(_) => format!(in alloc; "{n} undefined"),
        FaultKind::Range => format!(in alloc; "{n} range"),
        FaultKind::ZeroDivisor => format!(in alloc; "{n} zero divisor"),
        FaultKind::Unreadable { found } => format!(in alloc; "{n} unreadable {found}"),
    }
}

/// Adds a fault and the names that it is about.
fn add_fault(alloc: Global, all: &mut Bytes, fault: &Fault) -> Result<(), NoMemory> {
    let told = fault_told(alloc, fault).or(Err(NoMemory))?;
    all.append(told.as_bytes())?;
    if let FaultKind::Undefined(names) = &fault.kind {
        for name in names.as_slice() {
            all.append(b" ")?;
            all.append(name.as_slice())?;
        }
    }
    all.append(b"; ")
}

/// Adds the text or the number of a variable, as `X=a `.
fn add_value(all: &mut Bytes, name: &[u8], value: &[u8]) -> Result<(), NoMemory> {
    all.append(name)?;
    all.append(b"=")?;
    all.append(value)?;
    all.append(b" ")
}

/// Adds the texts and numbers of variables, as `X=a N=7 `.
fn add_variables(
    alloc: Global,
    all: &mut Bytes,
    names: &[Bytes],
    vars: &Vars,
) -> Result<(), NoMemory> {
    for name in names {
        if let Some(text) = vars.text(name.as_slice()) {
            add_value(all, name.as_slice(), text.as_slice())?;
        }
        if let Some(number) = vars.number(name.as_slice()) {
            let digits = number.to_string(alloc).or(Err(NoMemory))?;
            add_value(all, name.as_slice(), digits.as_bytes())?;
        }
    }
    Ok(())
}

fn copied(alloc: Global, names: &[Bytes]) -> Result<Items<Bytes>, NoMemory> {
    let mut all = Items::new(alloc);
    for name in names {
        all.push(Bytes::from_slice(alloc, name.as_slice())?)?;
    }
    Ok(all)
}

/// What is told of a program.
fn shown(
    alloc: Global,
    names: &[Bytes],
    verdict: &Verdict,
    vars: &Vars,
) -> Result<Bytes, NoMemory> {
    let mut all = Bytes::new(alloc);
    for fault in verdict.faults.as_slice() {
        add_fault(alloc, &mut all, fault)?;
    }
    add_variables(alloc, &mut all, names, vars)?;
    Ok(all)
}

/// The same of what came of it.
fn verdict_told(
    alloc: Global,
    names: &[Bytes],
    verdict: &Result<(Verdict, Vars), NoMemory>,
) -> Result<Bytes, NoMemory> {
    match verdict {
        Ok((verdict, vars)) => shown(alloc, names, verdict, vars),
        Err(NoMemory) => Err(NoMemory),
    }
}

/// Where a program is refused, in words.
fn refusal(alloc: Global, directive: usize, at: usize) -> Result<Bytes, NoMemory> {
    in_bytes(alloc, format!(in alloc; "{directive} refused at {at}"))
}

/// What a program tells of an input.
fn program_told(
    alloc: Global,
    program: Program,
    options: &str,
    defined: &str,
    input: &[u8],
) -> Result<Bytes, NoMemory>
    requires { IsScannable program }
{
    let names = copied(alloc, program.names.as_slice())?;
    let verdict = verdict_of(alloc, program, options.contains('s'), defined, input);
    verdict_told(alloc, names.as_slice(), &verdict)
}

/// What is told of the fields of a row.
fn told(
    alloc: Global,
    options: &str,
    defined: &str,
    implicit: &str,
    checks: &str,
    input: &str,
) -> Result<Bytes, NoMemory> {
    let checks = file_of(alloc, checks)?;
    let input = file_of(alloc, input)?;
    match program_of(alloc, options, implicit, checks.as_slice())? {
        Ok(program) => program_told(alloc, program, options, defined, input.as_slice()),
        Err((directive, at)) => refusal(alloc, directive, at),
    }
}

/// The six fields of a row.
fn fields(row: &str) -> Option<(&str, &str, &str, &str, &str, &str)> {
    let (options, rest) = row.split_once('~')?;
    let (defined, rest) = rest.split_once('~')?;
    let (implicit, rest) = rest.split_once('~')?;
    let (checks, rest) = rest.split_once('~')?;
    let (input, due) = rest.split_once('~')?;
    Some((options, defined, implicit, checks, input, due))
}

/// Whether a row tells what it says.
fn row_holds(alloc: Global, row: &str) -> Result<bool, NoMemory> {
    let Some((options, defined, implicit, checks, input, due)) = fields(row) else {
        return Ok(false);
    };
    let told = told(alloc, options, defined, implicit, checks, input);
    are_bytes(told, due.as_bytes())
}

/// Sees that each row tells what it says.
pub(crate) fn each_row_holds(rt: &impl Abort, alloc: Global, rows: &str) -> Result<(), NoMemory> {
    for row in rows.lines() {
        assert!(rt; row_holds(alloc, row)?, "{row}");
    }
    Ok(())
}
