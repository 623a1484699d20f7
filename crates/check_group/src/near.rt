//! Members of a long group, sought where their windows stand first.
ghost use Rattle.std.specs.Prelude.{◌≡◌, ◌≤◌, IfOk, drop, length};
ghost use Rattle.check_group.specs.Changes.{IsReady, Variables};
ghost use Rattle.check_group.specs.Matches.{Fits, FitsIn, looked, looked_in};
ghost use Rattle.check_group.specs.Near.{AreFirstsOf, BeginsNowhere};
ghost use Rattle.check_group.specs.Tries.{AreFor};
ghost use Rattle.pattern_scan.specs.Seek.{IsPlain};
ghost use Rattle.tt_base.specs.Occurrence.{IsFirstIn, StandsNowhere};

use crate::answer::Met;
use crate::directive::Check;
use crate::fault::FaultKind;
use crate::tries::Tries;
use ere_auto::Steps;
use pattern_scan::{Context, plain_text};
use std::alloc::Global;
use std::sync::ledger::Ledger;
use text_windows::Firsts;
use tt_base::{Items, NoMemory, Span, find_in};

/// From how many DAGs on a text is read for its windows first, and how many bytes it has to have.
const MANY: usize = 64;

const LONG: usize = 1 << 12;

/// Where the windows of a slice stand first, where so many DAGs are sought in it that it pays to know.
pub(crate) fn firsts_of(
    alloc: Global,
    checks: &[Check],
    slice: &[u8],
) -> Result<Option<Firsts>, NoMemory>
    ensures { IfOk result (AreFirstsOf slice.now) }
{
    if checks.len() < MANY || slice.len() < LONG {
        return Ok(None);
    }
    Ok(Some(Firsts::of(alloc, slice)?))
}

/// A place before which a directive doesn't begin in the slice from an offset to the text's end.
#[tactic(auto, using(crate::proofs::NearLemmas::begins_behind))]
pub(crate) fn earliest(known: &Option<Firsts>, check: &Check, text: &[u8], place: usize) -> usize
    requires here { place ≤ length text.now }
    requires known { AreFirstsOf (drop place text.now) known.now }
    ensures within { result ≤ length text.now }
    ensures nowhere { BeginsNowhere text.now check.now place result }
{
    match (known, plain_text(&check.pattern)) {
        (Some(firsts), Some(needle)) => place + firsts.earliest(needle).min(text.len() - place),
        _ => place,
    }
}

/// Where bytes first stand from an offset on. They often stand there, and to set a search up takes longer.
fn first_from(text: &[u8], needle: &[u8], from: usize) -> Option<usize>
    requires { from ≤ length text.now }
    ensures { IsFirstIn text.now needle.now from (length text.now) result }
{
    if text.split_at(from).1.starts_with(needle) {
        return Some(from);
    }
    find_in(text, needle, from, text.len())
}

/// A plain directive sought from an offset, where it begins nowhere before a later one.
fn look_later(
    alloc: Global,
    check: &Check,
    needle: &[u8],
    text: &[u8],
    from: usize,
    later: usize,
) -> Result<Met, FaultKind>
    requires ordered { from ≤ later }
    requires inside { later ≤ length text.now }
    requires plain { IsPlain check.now.pattern needle.now }
    requires nowhere { StandsNowhere text.now needle.now (length text.now) from later }
    ensures value { (vars : Variables) → result ≡ looked text.now vars check.now 0 from }
    ensures fits { (vars : Variables) → IfOk result (Fits vars from (length text.now)) }
{
    match first_from(text, needle, later) {
        Some(at) => Ok(Met {
            span: Span::of(at, needle.len()),
            fresh: Items::new(alloc),
        }),
        None => Err(FaultKind::NotFound { from, done: 0 }),
    }
}

/// A directive sought in the slice from an offset to the text's end, which begins nowhere before `earliest`.
#[inline(always)]
pub(crate) fn look_near<L: Ledger>(
    context: &Context<'_>,
    tries: &mut Tries,
    check: &Check,
    from: usize,
    earliest: usize,
    steps: &mut Steps<L>,
) -> Result<Result<Met, FaultKind>, NoMemory>
    requires inside { from ≤ length context.now.text.now }
    requires within { earliest ≤ length context.now.text.now }
    requires ready { IsReady context.now.vars.now check.now }
    requires same { AreFor tries.old check.now context.now.vars.now }
    requires nowhere { BeginsNowhere context.now.text.now check.now from earliest }
    ensures value { IfOk result (λ met. met ≡ looked_in context.now check.now 0 from) }
    ensures fits { IfOk result (λ met. IfOk met (FitsIn context.now from)) }
    ensures same { AreFor tries.new check.now context.now.vars.now }
{
    let text = context.text;
    if from < earliest {
        if let Some(needle) = plain_text(&check.pattern) {
            return Ok(look_later(context.alloc, check, needle, text, from, earliest));
        }
    }
    tries.look(context, check, 0, from, steps)
}
