//! Groups of DAGs.
ghost use Rattle.std.specs.Prelude.{◌≡◌, ◌⊎◌, ◌<◌, ◌≤◌, None, All, IfOk, IsTrue, OnErr, length};
ghost use Rattle.check_group.specs.Changes.{IsReady};
ghost use Rattle.check_group.specs.Continues.{ComesFrom, LiesIn, StopsFrom};
ghost use Rattle.check_group.specs.Group.{AreInOrder, AreSameText, BeginsBehind, EndsBy, IsTriedIn, dags_at, lowest, placed_in, reach};
ghost use Rattle.check_group.specs.Matches.{FitsIn};
ghost use Rattle.check_group.specs.Near.{BeginsNowhere};

use crate::answer::{Matched, Met};
use crate::directive::Check;
use crate::fault::{Fault, FaultKind};
use crate::near::{earliest, firsts_of, look_near};
use crate::ranges::{lowest_overlapped, passed, place_among};
use crate::tries::Tries;
use ere_auto::Steps;
use pattern_scan::{Context, plain_text};
use pattern_vars::Vars;
use std::alloc::Global;
use std::collections::VecDeque;
use std::sync::ledger::Ledger;
use tt_base::{NoMemory, Span};

/// Where the tries of a member begin, and a place before which it doesn't begin.
#[derive(Clone, Copy, Debug, PartialEq, Eq)]
struct FirstTry {
    from: usize,
    earliest: usize,
}

#[tactic(auto, using(crate::proofs::TriedLemmas::tried_failed, crate::proofs::TriedLemmas::ends_later))]
/// A member of a group, placed against the ranges before it, which stand in order.
fn place_member<L: Ledger>(
    context: &Context<'_>,
    check: &Check,
    ranges: &VecDeque<Span>,
    place: usize,
    first: FirstTry,
    steps: &mut Steps<L>,
) -> Result<Result<Met, FaultKind>, NoMemory>
    requires later { place ≤ first.from }
    requires here { first.from ≤ length context.now.text.now }
    requires within { first.earliest ≤ length context.now.text.now }
    requires nowhere { BeginsNowhere context.now.text.now check.now place first.earliest }
    requires ready { IsReady context.now.vars.now check.now }
    requires ranges { All (EndsBy (length context.now.text.now)) ranges.now.items }
    requires in_order { AreInOrder ranges.now.items }
    requires tried { IsTriedIn context.now ranges.now.items check.now place first.from }
    ensures value { IfOk result (λ met. met ≡ placed_in context.now ranges.now.items check.now place) }
    ensures fits { IfOk result (λ met. IfOk met (FitsIn context.now place)) }
    ensures free { IfOk result (λ met. IfOk met (λ m. lowest m.span ranges.now.items ≡ None)) }
{
    let mut tries = Tries::Fresh;
    let mut from = first.from;
    let mut at = 0;
    loop {
        match look_near(context, &mut tries, check, from, first.earliest, steps)? {
            Err(kind) => return Ok(Err(kind)),
            Ok(m) => {
                // The tries' starts rise, so no later try overlaps what ends at or before this match's start.
                at = passed(ranges, at, m.span.from);
                match lowest_overlapped(m.span, ranges, at) {
                    None => return Ok(Ok(m)),
                    Some(range) => from = range.to,
                }
            }
        }
    }
}

/// Whether two directives are sought as the same bytes.
fn is_same_text(one: &Check, other: &Check) -> bool
    ensures { IsTrue result → AreSameText one.now other.now }
{
    match (plain_text(&one.pattern), plain_text(&other.pattern)) {
        (Some(text), Some(next)) => text == next,
        _ => false,
    }
}

/// Where the tries of a member begin: behind the match of the member before it, if both are the same text.
fn first_try(checks: &[Check], index: usize, place: usize, behind: usize) -> usize
    requires within { index < length checks.now }
    ensures { (result ≡ place) ⊎ BeginsBehind checks.now index behind result }
{
    if index > 0 && is_same_text(&checks[index - 1], &checks[index]) {
        behind
    } else {
        place
    }
}

/// Where one more member of the same text is tried first: behind a match, if that isn't empty.
fn next_try(m: Span, place: usize) -> usize
    ensures { (result ≡ place) ⊎ ((result ≡ m.to) × (m.from < m.to)) }
{
    if m.from < m.to { m.to } else { place }
}

/// What a group spans with one more match.
fn reach(reached: Matched, m: Span) -> Matched
    ensures { result ≡ reach reached m }
{
    Matched {
        from: reached.from.min(m.from),
        to: reached.to.max(m.to),
    }
}

/// A group of DAGs at a place. The text ends where the block does. Each member binds as it matches, and these bindings stay
/// where a later one fails.
pub fn place_group<L: Ledger>(
    alloc: Global,
    checks: &[Check],
    text: &[u8],
    place: usize,
    vars: &mut Vars,
    steps: &mut Steps<L>,
) -> Result<Result<Matched, Fault>, NoMemory>
    requires here { place ≤ length text.now }
    requires ready { All (IsReady vars.old) checks.now }
    ensures value { IfOk result (ComesFrom (dags_at text.now place checks.now) vars.old vars.new) }
    ensures lies { IfOk result (λ outcome. IfOk outcome (LiesIn place (length text.now))) }
    ensures part_way { OnErr result (StopsFrom (dags_at text.now place checks.now) vars.old vars.new) }
{
    let known = firsts_of(alloc, checks, text.split_at(place).1)?;
    let mut ranges = VecDeque::new(alloc);
    let mut reached = Matched {
        from: text.len(),
        to: place,
    };
    let mut behind = place;
    for (index, check) in checks.iter().enumerate() {
        let from = first_try(checks, index, place, behind);
        let earliest = earliest(&known, check, text, place);
        let first = FirstTry { from, earliest };
        let context = Context { alloc, text, vars };
        match place_member(&context, check, &ranges, place, first, steps)? {
            Ok(m) => {
                // The room for the range is taken before anything is bound.
                place_among(&mut ranges, m.span)?;
                reached = reach(reached, m.span);
                behind = next_try(m.span, place);
                m.bind(vars);
            }
            Err(kind) => return Ok(Err(check.fault(kind))),
        }
    }
    Ok(Ok(reached))
}
