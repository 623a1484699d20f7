//! Where patterns are found, and what they give.
ghost use Rattle.std.specs.Prelude.{◌≡◌, ◌<◌, IfOk};
ghost use Rattle.pattern_parse.specs.PieceView.{items_view};
ghost use Rattle.pattern_parse.specs.Search.{IsSearchable};

use ere_auto::Steps;
use pattern_parse::{BodyRules, Demand, Formats, Frame, LineRule, Pattern, Role, parse_pattern};
use pattern_scan::{Context, Sought, seek};
use pattern_vars::{Binding, Bindings, Vars};
use std::alloc::Global;
use std::marker::Brand;
use std::process::Abort;
use std::sync::ledger::{Blank, Ledger};
use tt_base::{Bytes, Items, NoMemory, Span};

fn owned(alloc: Global, text: &str) -> Result<Bytes, NoMemory> {
    Bytes::from_slice(alloc, text.as_bytes())
}

/// Places for T, N, X and Y.
fn names(alloc: Global) -> Result<Items<Bytes>, NoMemory> {
    let mut names = Items::new(alloc);
    for name in "T N X Y".split(' ') {
        names.push(owned(alloc, name)?)?;
    }
    Ok(names)
}

/// The text `a.b`, and 255.
fn held(alloc: Global) -> Result<Bindings, NoMemory> {
    let mut fresh = Items::new(alloc);
    fresh.push(Binding::Text {
        name: owned(alloc, "T")?,
        text: owned(alloc, "a.b")?,
    })?;
    fresh.push(Binding::Number {
        name: owned(alloc, "N")?,
        value: 255,
    })?;
    Ok(fresh)
}

/// Variables of which T holds `a.b`, and N holds 255.
fn variables(alloc: Global) -> Result<Vars, NoMemory> {
    let names = names(alloc)?;
    let mut vars = Vars::new(alloc, names.as_slice())?;
    let fresh = held(alloc)?;
    if vars.have_places(fresh.as_slice()) {
        vars.bind(fresh);
    }
    Ok(vars)
}

/// The pattern of a body. One that is refused counts as want of memory.
fn pattern_of(alloc: Global, body: &str, fold: bool, frame: Frame) -> Result<Pattern, NoMemory>
    ensures { IfOk result (λ pattern. IsSearchable (items_view pattern.pieces)) }
{
    let mut known = Formats::new(alloc);
    let rules = BodyRules {
        demand: Demand {
            role: Role::Sought,
            rule: LineRule::Any,
            times: 1,
        },
        literal: false,
        fold,
        frame,
    };
    match parse_pattern(alloc, body.as_bytes(), &rules, &mut known) {
        Ok(pattern) => Ok(pattern),
        Err(_) => Err(NoMemory),
    }
}

fn sought_by<L: Ledger>(
    alloc: Global,
    pattern: &Pattern,
    text: &[u8],
    blank: Blank,
) -> Result<Sought, NoMemory>
    requires name { blank.name ≡ L.name }
    requires parts { blank.parts ≡ L.parts }
    requires some_part { 0 < blank.parts }
    requires searchable { IsSearchable (items_view pattern.now.pieces) }
{
    let vars = variables(alloc)?;
    let mut steps = Steps::<L>::new(blank);
    let context = Context {
        alloc,
        text,
        vars: &vars,
    };
    seek(&context, pattern, 7, 0, &mut steps)
}

/// Adds a text and a number.
fn add(alloc: Global, all: &mut Bytes, text: &str, number: i128) -> Result<(), NoMemory> {
    all.append(text.as_bytes())?;
    let digits = number.to_string(alloc).or(Err(NoMemory))?;
    all.append(digits.as_bytes())
}

fn add_name(all: &mut Bytes, before: &str, name: &Bytes) -> Result<(), NoMemory> {
    all.append(before.as_bytes())?;
    all.append(name.as_slice())
}

/// Adds what a match gives, as ` X=bb` or ` #N=7`.
fn add_binding(alloc: Global, all: &mut Bytes, binding: &Binding) -> Result<(), NoMemory> {
    match binding {
        Binding::Text { name, text } => {
            add_name(all, " ", name)?;
            add_name(all, "=", text)
        }
        Binding::Number { name, value } => {
            add_name(all, " #", name)?;
            add(alloc, all, "=", *value)
        }
    }
}

/// Adds the two ends of a span.
fn add_span(alloc: Global, all: &mut Bytes, span: &Span) -> Result<(), NoMemory> {
    add(alloc, all, " ", span.from as i128)?;
    add(alloc, all, " ", span.to as i128)
}

/// Adds the answer, as ` 1 4 X=bb`.
fn add_answer(alloc: Global, all: &mut Bytes, sought: &Sought) -> Result<(), NoMemory> {
    match sought {
        Sought::Found { span, fresh } => {
            add_span(alloc, all, span)?;
            for binding in fresh.as_slice() {
                add_binding(alloc, all, binding)?;
            }
            Ok(())
        }
        Sought::Absent => all.append(b" absent"),
        Sought::UndefinedNames(names) => {
            all.append(b" undefined")?;
            for name in names.as_slice() {
                add_name(all, " ", name)?;
            }
            Ok(())
        }
        Sought::Range => all.append(b" range"),
        Sought::ZeroDivisor => all.append(b" zero divisor"),
        Sought::Unreadable(span) => {
            all.append(b" unreadable")?;
            add_span(alloc, all, span)
        }
    }
}

/// The answer where a pattern is sought in a text.
fn answer(alloc: Global, pattern: &Pattern, text: &[u8]) -> Result<Bytes, NoMemory>
    requires searchable { IsSearchable (items_view pattern.now.pieces) }
{
    let sought = sought_by::<Brand>(alloc, pattern, text, Blank::new(1))?;
    let mut all = Bytes::new(alloc);
    add_answer(alloc, &mut all, &sought)?;
    Ok(all)
}

/// The body, the text and the answer of a row.
fn fields(row: &str) -> Option<(&str, &str, &str)> {
    let (body, rest) = row.split_once('~')?;
    let (text, due) = rest.split_once('~')?;
    Some((body, text, due))
}

/// Whether the body of a row, read so, has this answer in its text.
fn is_told(alloc: Global, row: &str, fold: bool, frame: Frame) -> Result<bool, NoMemory> {
    let Some((body, text, due)) = fields(row) else {
        return Ok(false);
    };
    let pattern = pattern_of(alloc, body, fold, frame)?;
    is_due(answer(alloc, &pattern, text.as_bytes()), due)
}

fn is_due(told: Result<Bytes, NoMemory>, due: &str) -> Result<bool, NoMemory> {
    Ok(told?.as_slice() == due.as_bytes())
}

/// Sees that the body of each row, read so, has its answer in its text.
fn each_is_told(
    rt: &impl Abort,
    alloc: Global,
    rows: &str,
    fold: bool,
    frame: Frame,
) -> Result<(), NoMemory> {
    for row in rows.lines() {
        assert!(rt; is_told(alloc, row, fold, frame)?, "{row}");
    }
    Ok(())
}

/// Bodies, texts and answers, with `~` between.
const FOUND: &str = r"a[[X:b*]]~cabb~ 1 4 X=bb
[[X:a|ab]][[Y:b*]][[Y]]c~abbc~ 0 4 X=a Y=b
%[[X:[a-z]+]] = %[[X]]~%ab = %abc~ 0 9 X=ab
%[[X:[a-z]+]] = %[[X]]~%ab = %a~ absent
<[[T]]>~<axb><a.b>~ 5 10
[[T]]-[[T]]>~a.b-a.b<a.b-a.b>~ 8 16
[[T]]-[[T]]~a.b-axb~ absent
[[X:a+]]-[[X]]~aaa-aa~ 1 6 X=aa
[[X:a]][[X:b]][[X]]~abb~ 0 3 X=a X=b
{{(a)\1}}[[X:(b)\1]][[X]]~aabbbb~ 0 6 X=bb
[[#X:]]~x042~ 1 4 #X=42
[[#%X,X:]]~ffFF~ 2 4 #X=255
[[#%x,X:N]]~0ff~ 1 3 #X=255
[[#%.4X,N+1]]~0100~ 0 4
[[#%x,N+1]]~100~ 0 3
[[#%x,N+1]]~101~ absent
[[#%.2u,X:]]~007~ 0 2 #X=0
[[@LINE+1]]:[[#@LINE]]~8:7~ 0 3
[[#%d,0-N]]~-255~ 0 4
add [[T]], #[[#N+1]]~add a.b, #255 add a.b, #256~ 14 27
[[T]][[#M:N]]~a.b255~ 0 6 #M=255
abc~ababc~ 2 5
abc~abab~ absent";

const REFUSED: &str = r"[[X]]~x~ undefined X
[[Y]][[#M]][[Y]][[X]]~x~ undefined Y M X
[[#M+div(1,0)]]~x~ undefined M
[[T]] [[#M]]~a.b 1~ undefined M
[[#div(N,0)]]~x~ zero divisor
[[#0-N]]~x~ range
[[#170141183460469231731687303715884105727+1]]~0~ range
{{b*}}[[#X:]]~b340282366920938463463374607431768211456~ unreadable 1 40";

#[test]
fn patterns_are_found_with_what_they_give(rt: HostRuntime) -> Result<(), NoMemory> {
    each_is_told(&rt, rt.alloc(), FOUND, false, Frame::Open)
}

#[test]
fn what_stands_in_the_way_is_told(rt: HostRuntime) -> Result<(), NoMemory> {
    each_is_told(&rt, rt.alloc(), REFUSED, false, Frame::Open)
}

const FOLDED: &str = r"{{[^a]}}B~Ab~ absent
{{[^a]}}B~xb~ 0 2
[[X:a]][[X]]~aA~ 0 2 X=a
[[T]]~A.B~ 0 3
[[#%x,X:]]~fF~ 0 2 #X=255
[[#%#X,X:]]~0Xff~ 0 4 #X=255";

#[test]
fn letters_match_in_either_case(rt: HostRuntime) -> Result<(), NoMemory> {
    each_is_told(&rt, rt.alloc(), FOLDED, true, Frame::Open)
}

const SPACED: &str = "foo~ foo ~ 0 5
foo~foo bar~ absent";

#[test]
fn a_line_is_matched_but_for_spaces_at_its_ends(rt: HostRuntime) -> Result<(), NoMemory> {
    each_is_told(&rt, rt.alloc(), SPACED, false, Frame::Spaced)
}

const TIGHT: &str = "foo~ foo~ absent
foo~foo~ 0 3";

#[test]
fn a_line_is_matched_with_its_blanks(rt: HostRuntime) -> Result<(), NoMemory> {
    each_is_told(&rt, rt.alloc(), TIGHT, false, Frame::Tight)
}
