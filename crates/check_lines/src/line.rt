//! What one line of a check file holds.
ghost use Rattle.std.specs.Prelude.{◌≡◌, ◌+◌, ◌<◌, ◌≤◌, ◌^◌, ℕ, IfSome, Ok, Some, length};
ghost use Rattle.check_lines.specs.Line.{FaultLies, LiesAmong, LiesAsBoth, LiesOn, LiesOnLine, MistakeLies, body_length, body_start, checked_by, directive_by, fault_at, line_by, mistake, prefix_count, unless_mistaken};
ghost use Rattle.check_lines.specs.declared.fault.CheckKind.TheVariants.{Line};

use crate::class::{Class, back_length, front_length};
use crate::decision::{LineMark, Prefixes, decide};
use crate::directive::Directive;
use crate::fault::{CheckFault, CheckKind, LineFault};
use crate::kind::row_of;
use crate::suffix::{Spelled, Spelling};
use tt_base::{Place, Span};

/// How lines are read.
#[derive(Drop)]
pub struct Rules<'a> {
    pub prefixes: Prefixes<'a>,
    /// Whether the blanks at both ends of a body are part of it.
    pub keep_blanks: bool,
}

/// Where a line stands.
#[derive(Clone, Copy, Debug, PartialEq, Eq)]
pub struct LineAt {
    /// Its number, from 1.
    pub number: u32,
    /// The offset in the text at which it begins.
    pub start: usize,
}

/// What decides that a line holds a directive. Offsets count in the line.
#[derive(Clone, Copy, Debug, PartialEq, Eq)]
struct Head {
    /// Where its prefix begins.
    at: usize,
    /// Where its colon ends.
    behind: usize,
    /// The number of its prefix.
    prefix: usize,
    suffix: Spelled,
}

/// What a line holds; `earlier` says whether a directive before it counts as an earlier match.
pub fn read_line(
    rules: &Rules<'_>,
    earlier: bool,
    place: LineAt,
    line: &[u8],
) -> Result<Option<Directive>, CheckFault>
    requires { place.start + length line.now ≤ 2 ^ 30 }
    ensures value { result ≡ line_by rules.now earlier place line.now }
    ensures lies { LiesOn place line.now result }
    ensures among { LiesAmong (prefix_count rules.now) result }
{
    match decide(&rules.prefixes, line) {
        None => Ok(None),
        Some(found) => match found.mark {
            LineMark::Comment => Ok(None),
            LineMark::Check(prefix, spelling) => match spelling {
                Spelling::Bad(fault) => Err(fault_at(place, found.at, fault)),
                Spelling::Good(suffix) => {
                    let head = Head {
                        at: found.at,
                        behind: found.at + prefix.length + suffix.count,
                        prefix: prefix.index,
                        suffix,
                    };
                    checked(rules.keep_blanks, earlier, place, line, head)
                }
            },
        },
    }
}

/// A line with a good suffix behind a prefix.
fn checked(
    keep: bool,
    earlier: bool,
    place: LineAt,
    line: &[u8],
    head: Head,
) -> Result<Option<Directive>, CheckFault>
    requires fits { place.start + length line.now ≤ 2 ^ 30 }
    requires ordered { head.at ≤ head.behind }
    requires within { head.behind ≤ length line.now }
    ensures value { result ≡ checked_by keep earlier place line.now head }
    ensures lies { LiesOn place line.now result }
    ensures among { (count : ℕ) → head.prefix < count → LiesAmong count result }
{
    let from = body_start(keep, line, head.behind);
    let rest = &line[from..];
    let count = body_length(keep, rest);
    let one = directive(place, head, from, count);
    unless_mistaken(place, mistake(earlier, &rest[..count], head, from), one)
}

/// The directive with a body of `count` bytes at `from`.
fn directive(place: LineAt, head: Head, from: usize, count: usize) -> Directive
    requires ordered { head.at ≤ from }
    requires fits { place.start + from + count ≤ 2 ^ 30 }
    ensures value { result ≡ directive_by place head from count }
    ensures lies { LiesOnLine place.number place.start (place.start + from + count) (Ok (Some result)) }
{
    Directive {
        at: place.start + head.at,
        line: place.number,
        head: head.at as u32 + 1,
        col: from as u32 + 1,
        prefix: head.prefix,
        kind: head.suffix.kind,
        literal: head.suffix.literal,
        body: Span::of(place.start + from, count),
    }
}

fn unless_mistaken(
    place: LineAt,
    mistake: Option<(usize, LineFault)>,
    one: Directive,
) -> Result<Option<Directive>, CheckFault>
    requires { IfSome mistake (λ mistake. place.start + mistake.0 ≤ 2 ^ 30) }
    ensures value { result ≡ unless_mistaken place.number place.start mistake one }
    ensures lies { LiesAsBoth place mistake one result }
    ensures among { (count : ℕ) → one.prefix < count → LiesAmong count result }
{
    match mistake {
        None => Ok(Some(one)),
        Some((at, fault)) => Err(fault_at(place, at, fault)),
    }
}

/// A fault at an offset of a line.
fn fault_at(place: LineAt, at: usize, fault: LineFault) -> CheckFault
    requires { place.start + at ≤ 2 ^ 30 }
    ensures value { result ≡ fault_at place.number place.start at (Line fault) }
    ensures lies { FaultLies place at result }
{
    CheckFault {
        at: place.start + at,
        place: Place {
            line: place.number,
            col: at as u32 + 1,
        },
        kind: CheckKind::Line(fault),
    }
}

/// The first thing that is wrong with a directive, and where in its line.
fn mistake(earlier: bool, body: &[u8], head: Head, from: usize) -> Option<(usize, LineFault)>
    ensures value { result ≡ mistake earlier head.suffix body.now head.at head.behind from }
    ensures lies { MistakeLies head from result }
{
    let rule = row_of(head.suffix.kind).demand.rule;
    if !rule.takes_none() && body.is_empty() {
        Some((head.behind, LineFault::EmptyPattern))
    } else if rule.takes_none() && !body.is_empty() {
        Some((from, LineFault::NonEmptyForEmpty))
    } else if rule.asks_line() && !earlier {
        Some((head.at, LineFault::NoEarlierCheck))
    } else {
        None
    }
}

/// Where the body behind an offset begins.
fn body_start(keep: bool, line: &[u8], behind: usize) -> usize
    requires { behind ≤ length line.now }
    ensures value { result ≡ body_start keep line.now behind }
    ensures above { behind ≤ result }
    ensures within { result ≤ length line.now }
{
    let blanks = front_length(Class::Blank, &line[behind..]);
    if keep || line.len() == behind + blanks {
        behind
    } else {
        behind + blanks
    }
}

/// How long the body at the front of the rest of a line is.
fn body_length(keep: bool, rest: &[u8]) -> usize
    ensures value { result ≡ body_length keep rest.now }
    ensures within { result ≤ length rest.now }
{
    if keep {
        rest.len()
    } else {
        rest.len() - back_length(Class::Blank, rest)
    }
}
