//! What a group holds once it is closed.
ghost use Rattle.std.specs.Prelude.{◌≡◌, ◌↔◌, ◌+◌, ◌-◌, ◌≤◌, true, length, IfOk, IfSome, IsTrue, None, OnOk, Some};
ghost use Rattle.ere_tree.specs.Derivation.{IsSameText};
ghost use Rattle.ere_reach.specs.Held.{Tells};
ghost use Rattle.ere_reach.specs.Leads.{FitsKnown, FitsText, StandsFirst, StandsNoMore, StandsNotBefore};

use crate::budget::{Budget, FOR_A_STEP};
use crate::site::Site;
use ere_tree::Cap;
use std::alloc::AllocError;

/// Whether two texts of one length are the same with letters in either case. Most differ in the first byte.
fn is_like(one: &[u8], other: &[u8]) -> bool
    requires { length one.now ≡ length other.now }
    ensures { IsTrue result ↔ IsSameText true one.now other.now }
{
    if one.len() > 0 && !one[0].eq_ignore_ascii_case(&other[0]) {
        return false;
    }
    one == other || one.eq_ignore_ascii_case(other)
}

/// What is known of the texts that begin at one place, from one of them: where it ends, a place before which it doesn't stand
/// again, and the place where it stands first. A longer one stands nowhere before these either.
#[derive(Clone, Copy)]
pub(crate) struct Known {
    pub(crate) to: usize,
    pub(crate) next: usize,
    pub(crate) first: usize,
}

impl Known {
    /// Nothing yet of the texts that begin here.
    pub(crate) fn new(site: Site<'_>, from: usize) -> Known
        ensures fits { FitsKnown site.entry from result }
        ensures to { result.to ≡ from }
    {
        Known {
            to: from,
            next: from,
            first: site.low,
        }
    }

    /// What of it holds of the text up to another end. Nothing does where that one is shorter.
    fn up_to(self, site: Site<'_>, from: usize, to: usize) -> Known
        requires order { from ≤ to }
        requires inside { to ≤ site.high }
        requires fits { FitsText site }
        requires known { FitsKnown site from self }
        ensures known { FitsKnown site.entry from result }
        ensures to { result.to ≡ to }
        ensures next { to ≤ result.next }
    {
        let known = if to < self.to {
            Known::new(site, from)
        } else {
            self
        };
        Known {
            to,
            next: known.next.max(to),
            first: known.first,
        }
    }
}

/// Where a text of letters in either case as this one may stand again from its end on. It doesn't before `since`.
fn next_like(site: Site<'_>, from: usize, to: usize, since: usize) -> Option<usize>
    requires order { from ≤ to }
    requires inside { to ≤ site.high }
    requires since { to ≤ since }
    requires before { StandsNotBefore site from to since }
    requires fits { FitsText site }
    ensures none { result ≡ None → StandsNoMore site.entry from to }
    ensures some { IfSome result (StandsNotBefore site.entry from to) }
{
    let (text, count) = (site.text, to - from);
    let bytes = &text[from..to];
    for place in since..site.high + 1 {
        if count > site.high - place {
            return None;
        }
        if is_like(&text[place..place + count], bytes) {
            return Some(place);
        }
    }
    None
}

/// Where a text stands first from `since` on.
fn first_like(site: Site<'_>, from: usize, to: usize, since: usize) -> usize
    requires order { from ≤ to }
    requires inside { to ≤ site.high }
    requires fits { FitsText site }
    ensures same { StandsFirst site.entry from to result }
    ensures before { result ≤ from }
{
    let (text, count) = (site.text, to - from);
    let bytes = &text[from..to];
    for place in since..from {
        let begins = count == 0 || text[place] == text[from];
        if begins && &text[place..place + count] == bytes {
            return place;
        }
    }
    from
}

/// What a group holds that is closed over a part: the first part that is the same. None where no reference can match it any more.
pub(crate) fn closed_over(
    site: Site<'_>,
    from: usize,
    to: usize,
    known: &mut Known,
    budget: &mut Budget,
) -> Result<Option<Cap>, AllocError>
    requires order { from ≤ to }
    requires inside { to ≤ site.high }
    requires fits { FitsText site }
    requires known { FitsKnown site from known.old }
    ensures tells { IfOk result (λ part. Tells site.entry.text.now site.entry.high to part (Some (from, to))) }
    ensures known { OnOk result (FitsKnown site.entry from known.new) }
{
    let before = known.up_to(site, from, to);
    let Some(next) = next_like(site, from, to, before.next) else {
        budget.take(1 + site.high.saturating_sub(before.next) / FOR_A_STEP)?;
        *known = Known {
            next: site.high + 1,
            ..before
        };
        return Ok(None);
    };
    let first = first_like(site, from, to, before.first);
    let passed = next.saturating_sub(before.next) / FOR_A_STEP
        + first.saturating_sub(before.first) / FOR_A_STEP;
    budget.take(1 + passed)?;
    *known = Known { to, next, first };
    Ok(Some(Cap {
        from: first,
        to: first + (to - from),
    }))
}
