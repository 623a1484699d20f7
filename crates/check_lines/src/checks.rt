//! The directives of a whole check file.
ghost use Rattle.std.specs.Prelude.{◌≡◌, ◌+◌, ◌<◌, ◌≤◌, ◌^◌, All, Ok, IfErr, IfOk, MatchResult, length};
ghost use Rattle.std.specs.List.{position_from};
ghost use Rattle.std.specs.Prelude.{not};
ghost use Rattle.check_lines.specs.Checks.{AllIsPlaced, Answers, AreLines, Completes, FailIsWhole, HoldBy, IsDueBy, IsRefusalOf, LineAdded, checks_by, complete, lines_by, unused_prefix, whole_fault};
ghost use Rattle.check_lines.specs.Kind.{is_earlier};
ghost use Rattle.check_lines.specs.Line.{LiesAmong, LiesOn, line_by, prefix_count};

use crate::decision::Prefixes;
use crate::directive::Directive;
use crate::fault::{CheckFail, CheckFault, CheckKind};
use crate::kind::is_earlier;
use crate::line::{LineAt, Rules, read_line};
use prefix_tree::PrefixTree;
use std::alloc::Global;
use tt_base::{Bytes, Items, NoMemory, Place, line_of};

/// How a check file is read.
#[derive(Drop)]
pub struct FileRules<'a> {
    /// The prefixes of directives.
    pub checks: &'a [Bytes],
    /// Those that hide the rest of their lines.
    pub comments: &'a [Bytes],
    /// One of several check prefixes may have no directive.
    pub allow_unused: bool,
    /// The blanks at both ends of a body are part of it.
    pub keep_blanks: bool,
    /// There may be no directive.
    pub may_lack: bool,
}

/// The directives of a check file's canonical text, in line order.
pub fn read_checks(
    alloc: Global,
    rules: &FileRules<'_>,
    text: &[u8],
) -> Result<Items<Directive>, CheckFail>
    requires { length text.now ≤ 2 ^ 30 }
    ensures by_lines { MatchResult result (HoldBy rules.now text.now) (IsDueBy rules.now text.now) }
    ensures value { Answers (checks_by rules.now text.now) result }
    ensures placed { AllIsPlaced text.now (length rules.now.checks.now) result }
{
    let by_line = Rules {
        prefixes: Prefixes {
            checks: PrefixTree::new(alloc, rules.checks)?,
            comments: PrefixTree::new(alloc, rules.comments)?,
        },
        keep_blanks: rules.keep_blanks,
    };
    let directives = read_lines(alloc, text, &by_line)?;
    complete(
        alloc,
        rules.allow_unused,
        rules.may_lack,
        rules.checks.len(),
        directives,
    )
}

/// What all lines hold.
fn read_lines(alloc: Global, text: &[u8], rules: &Rules<'_>) -> Result<Items<Directive>, CheckFail>
    requires { length text.now ≤ 2 ^ 30 }
    ensures by_lines { AreLines rules.now text.now result }
    ensures value { Answers (lines_by rules.now text.now) result }
    ensures placed { AllIsPlaced text.now (prefix_count rules.now) result }
{
    let mut directives = Items::new(alloc);
    let mut earlier = false;
    let mut number = 1;
    let mut start = 0;
    loop {
        let end = line_of(text, start).to;
        let place = LineAt { number, start };
        match add_line(&mut directives, rules, earlier, place, &text[start..end]) {
            Ok(found) => earlier = earlier | found,
            Err(fail) => return Err(fail),
        }
        if end == text.len() {
            return Ok(directives);
        }
        number += 1;
        start = end + 1;
    }
}

/// Adds what one line holds, and answers whether it counts as an earlier match.
fn add_line(
    directives: &mut Items<Directive>,
    rules: &Rules<'_>,
    earlier: bool,
    place: LineAt,
    line: &[u8],
) -> Result<bool, CheckFail>
    requires { place.start + length line.now ≤ 2 ^ 30 }
    ensures ok { LineAdded result directives.old directives.new (line_by rules.now earlier place line.now) }
    ensures err { IfErr result (λ fail. IsRefusalOf (line_by rules.now earlier place line.now) fail) }
    ensures lies { LiesOn place line.now (line_by rules.now earlier place line.now) }
    ensures among { LiesAmong (prefix_count rules.now) (line_by rules.now earlier place line.now) }
{
    match read_line(rules, earlier, place, line) {
        Ok(None) => Ok(false),
        Ok(Some(directive)) => match directives.push(directive) {
            Ok(()) => Ok(is_earlier(directive.kind)),
            Err(_) => Err(CheckFail::NoMemory),
        },
        Err(fault) => Err(CheckFail::Bad(fault)),
    }
}

/// Directives that are some, unless they may lack, and use each of so many prefixes.
fn complete(
    alloc: Global,
    allow_unused: bool,
    may_lack: bool,
    count: usize,
    directives: Items<Directive>,
) -> Result<Items<Directive>, CheckFail>
    requires { All (λ one. one.prefix < count) directives }
    ensures value { Completes (complete allow_unused may_lack count directives) directives result }
    ensures whole { IfErr result FailIsWhole }
{
    if directives.is_empty() && !may_lack {
        return Err(CheckFail::Bad(whole_fault(CheckKind::NoChecks)));
    }
    match unused_prefix(alloc, allow_unused, count, directives.as_slice())? {
        None => Ok(directives),
        Some(index) => Err(CheckFail::Bad(whole_fault(CheckKind::UnusedPrefix(index)))),
    }
}

/// One of several check prefixes that no directive has, unless such are allowed: the first.
fn unused_prefix(
    alloc: Global,
    allow_unused: bool,
    count: usize,
    directives: &[Directive],
) -> Result<Option<usize>, NoMemory>
    requires { All (λ one. one.prefix < count) directives.now }
    ensures { IfOk result (λ index. index ≡ unused_prefix allow_unused count directives.now) }
{
    if allow_unused || count <= 1 {
        return Ok(None);
    }
    let Ok(mut used) = Vec::from_elem(alloc, false, count) else {
        return Err(NoMemory);
    };
    for one in directives {
        used[one.prefix] = true;
    }
    Ok(first_unset(used.as_slice()))
}

/// The number of the first flag that isn't set.
fn first_unset(flags: &[bool]) -> Option<usize>
    ensures { result ≡ position_from not 0 flags.now }
{
    flags.iter().position(|flag| !*flag)
}

/// A fault of the whole file.
fn whole_fault(kind: CheckKind) -> CheckFault
    ensures { result ≡ whole_fault kind }
{
    CheckFault {
        at: 0,
        place: Place { line: 1, col: 1 },
        kind,
    }
}
