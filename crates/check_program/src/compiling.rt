//! Compiling directives.
ghost use Rattle.std.specs.Prelude.{◌≡◌, ◌+◌, ◌++◌, [], ◌∷◌, All, IfOk, IfSome, length, map, min};
ghost use Rattle.check_program.specs.Adds.{Adds, IsOne, body_seen};
ghost use Rattle.check_program.specs.Compiled.{Comes, Compiles, EndsBy, bodies_of, body_of, implicit_bodies};
ghost use Rattle.check_program.specs.Ready.{IsScannable};

use crate::names::names_of;
use crate::program::{CompileFail, CompileOpts, Program};
use check_group::Check;
use check_lines::{Directive, Kind, row_of};
use pattern_parse::{BodyRules, Demand, Formats, PatFail, parse_pattern};
use std::alloc::Global;
use tt_base::{Bytes, Items, NoMemory};

/// A body as it stands in a text, with what decides how it is read, and its line.
#[derive(Drop)]
struct RawBody<'a> {
    bytes: &'a [u8],
    demand: Demand,
    literal: bool,
    line: u32,
}

/// The directive of a body, where these formats are known; from then on those of the numbers that it defines are, too.
fn check_of(
    alloc: Global,
    body: &RawBody<'_>,
    number: usize,
    opts: &CompileOpts,
    known: &mut Formats,
) -> Result<Check, CompileFail>
    ensures { IsOne opts.now number known.old (body_seen body.now) result known.new }
{
    let rules = BodyRules {
        demand: body.demand,
        literal: body.literal,
        fold: opts.fold,
        frame: opts.frame,
    };
    match parse_pattern(alloc, body.bytes, &rules, known) {
        Ok(pattern) => Ok(Check {
            number,
            demand: body.demand,
            line: body.line,
            pattern,
        }),
        Err(PatFail::Bad(fault)) => Err(CompileFail::Bad {
            directive: number,
            fault,
        }),
        Err(PatFail::NoMemory) => Err(CompileFail::NoMemory),
    }
}

/// Adds the directive of a body.
fn add_check(
    alloc: Global,
    checks: &mut Items<Check>,
    body: &RawBody<'_>,
    number: usize,
    opts: &CompileOpts,
    known: &mut Formats,
) -> Result<(), CompileFail>
    ensures { Adds opts.now number checks.old known.old (body_seen body.now) result checks.new known.new }
{
    match check_of(alloc, body, number, opts, known) {
        Ok(check) => match checks.push(check) {
            Ok(()) => Ok(()),
            Err(NoMemory) => Err(CompileFail::NoMemory),
        },
        Err(fail) => Err(fail),
    }
}

/// The directives of lines, whose bodies lie in a text.
fn of_lines(
    alloc: Global,
    text: &[u8],
    directives: &[Directive],
    opts: &CompileOpts,
    known: &mut Formats,
) -> Result<Items<Check>, CompileFail>
    requires { All (EndsBy (length text.now)) directives.now }
    ensures { Comes opts.now 0 known.old (map (body_of text.now) directives.now) result known.new }
{
    let mut checks = Items::new(alloc);
    for (number, directive) in directives.iter().enumerate() {
        let body = RawBody {
            bytes: &text[directive.body.from..directive.body.to],
            demand: row_of(directive.kind).demand,
            literal: directive.literal,
            line: directive.line,
        };
        match add_check(alloc, &mut checks, &body, number, opts, known) {
            Ok(()) => {}
            Err(fail) => return Err(fail),
        }
    }
    Ok(checks)
}

/// The line that is told of an implicit directive, by its place among them from 0.
fn line_of(index: usize) -> u32
    ensures { result ≡ min (1 + index) 4294967295 }
{
    match u32::try_from(index) {
        Ok(index) => index.saturating_add(1),
        Err(_) => u32::MAX,
    }
}

/// The NOTs of every region, numbered behind so many directives.
fn of_regions(
    alloc: Global,
    implicit: &[Bytes],
    lines: usize,
    opts: &CompileOpts,
    known: &mut Formats,
) -> Result<Items<Check>, CompileFail>
    ensures { Comes opts.now lines known.old (implicit_bodies 1 implicit.now) result known.new }
{
    let mut checks = Items::new(alloc);
    for (index, body) in implicit.iter().enumerate() {
        let Some(number) = lines.checked_add(index) else {
            return Err(CompileFail::NoMemory);
        };
        let body = RawBody {
            bytes: body.as_slice(),
            demand: row_of(Kind::Not).demand,
            literal: false,
            line: line_of(index),
        };
        match add_check(alloc, &mut checks, &body, number, opts, known) {
            Ok(()) => {}
            Err(fail) => return Err(fail),
        }
    }
    Ok(checks)
}

/// Compiles directives whose bodies lie in a text, and behind them NOTs of every region with these bodies. Formats of
/// numbers are known from their definition on; where a body is refused, those of the bodies before it are known.
pub fn compile(
    alloc: Global,
    text: &[u8],
    directives: &[Directive],
    implicit: &[Bytes],
    opts: &CompileOpts,
    known: &mut Formats,
) -> Result<Program, CompileFail>
    requires { All (EndsBy (length text.now)) directives.now }
    ensures compiled { Compiles opts.now (length directives.now) known.old
        (bodies_of text.now directives.now implicit.now) result known.new }
    ensures scannable { IfOk result IsScannable }
{
    let checks = match of_lines(alloc, text, directives, opts, known) {
        Ok(checks) => checks,
        Err(fail) => return Err(fail),
    };
    let always = match of_regions(alloc, implicit, directives.len(), opts, known) {
        Ok(always) => always,
        Err(fail) => return Err(fail),
    };
    match names_of(alloc, checks.as_slice(), always.as_slice()) {
        Ok(names) => Ok(Program {
            checks,
            always,
            names,
        }),
        Err(NoMemory) => Err(CompileFail::NoMemory),
    }
}
