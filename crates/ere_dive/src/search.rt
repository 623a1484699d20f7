//! The search depth first.
ghost use Rattle.std.specs.Prelude.{◌≡◌, ◌≤◌, true, length, IfOk, OnOk};
ghost use Rattle.ere_dive.specs.Dive.{AllLead, FitsText, LeadsTo, Matches, OpensTo};
ghost use Rattle.ere_dive.specs.declared.open.Site as sites;
ghost use Rattle.ere_tree.specs.View.{view};

use crate::open::{Opened, Site, open};
use crate::sums::Sums;
use crate::task::{State, What};
use ere_tree::{Cap, Ere};
use std::alloc::{AllocError, Global};

/// How many states may wait at most. Others are left out.
const MOST_STATES: usize = 4_096;

/// How many steps a search may take in one order.
const MOST_STEPS: usize = 100_000;

/// Adds the numbers of the references.
#[cycle(numbers)]
fn put_numbers(ere: &Ere, numbers: &mut Vec<u32>) -> Result<(), AllocError> {
    match ere {
        Ere::Cat(parts) => put_numbers_of(parts.as_slice(), numbers),
        Ere::Alt(choices) => put_numbers_of(choices.as_slice(), numbers),
        Ere::Repeat { inner, .. } | Ere::Group { inner, .. } => put_numbers(inner, numbers),
        Ere::Ref { number, .. } => {
            if !numbers.as_slice().contains(number) {
                numbers.push(*number)?;
            }
            Ok(())
        }
        Ere::Empty | Ere::Plain(_) | Ere::Set(_) | Ere::LineStart | Ere::LineEnd => Ok(()),
    }
}

/// Of all of them.
#[cycle(numbers)]
fn put_numbers_of(all: &[Ere], numbers: &mut Vec<u32>) -> Result<(), AllocError> {
    for one in all {
        put_numbers(one, numbers)?;
    }
    Ok(())
}

/// Which of two states is gone on from first: the one that does more, or the other one.
#[derive(Clone, Copy)]
enum Order {
    MoreFirst,
    LessFirst,
}

/// Adds states to those that wait.
fn put<'e>(stack: &mut Vec<State<'e>>, opened: Opened<'e>, order: Order) -> Result<(), AllocError>
    ensures { OnOk result ((site : sites.Site) → OpensTo site opened.entry → AllLead site stack.old.items
        → AllLead site stack.new.items) }
{
    match opened {
        Opened::Nothing => Ok(()),
        Opened::One(state) => {
            stack.push(state)?;
            Ok(())
        }
        Opened::Two(first, other) => {
            let (now, later) = match order {
                Order::MoreFirst => (first, other),
                Order::LessFirst => (other, first),
            };
            if stack.len() < MOST_STATES {
                stack.push(later)?;
            }
            stack.push(now)?;
            Ok(())
        }
    }
}

/// Where it begins.
fn start<'e>(site: Site<'_, 'e>) -> Result<State<'e>, AllocError>
    requires fits { FitsText site }
    ensures { IfOk result (LeadsTo site.entry) }
{
    let mut state = State {
        tasks: Vec::new(site.alloc),
        place: site.low,
        held: Vec::new(site.alloc),
    };
    state.push(0, What::Match(site.whole))?;
    Ok(state)
}

/// Whether a match of the span is found in this order.
fn is_found(site: Site<'_, '_>, order: Order, left: &mut usize) -> Result<bool, AllocError>
    requires fits { FitsText site }
    ensures found { IfOk result (λ found. found ≡ true
        → Matches site.entry.text.now (view site.entry.whole.now) site.entry.low site.entry.high) }
    ensures left { left.new ≤ left.old }
{
    let mut sums = Sums::new(site.alloc);
    let mut stack = Vec::new(site.alloc);
    stack.push(start(site)?)?;
    for _ in 0..MOST_STEPS.min(*left) {
        *left = left.saturating_sub(1);
        let Some(state) = stack.pop() else {
            return Ok(false);
        };
        if state.is_done(site.high) {
            return Ok(true);
        }
        if !state.branches() || sums.put(state.sum())? {
            let opened = open(site, state)?;
            put(&mut stack, opened, order)?;
        }
    }
    Ok(false)
}

/// Whether the expression matches the span of the text, as far as it is found in the steps that are left, and in no more than
/// 100,000 in either of two orders. They are taken off. False tells nothing.
pub fn is_between(
    alloc: Global,
    ere: &Ere,
    text: &[u8],
    span: Cap,
    left: &mut usize,
) -> Result<bool, AllocError>
    requires order { span.from ≤ span.to }
    requires inside { span.to ≤ length text.now }
    ensures found { IfOk result (λ found. found ≡ true → Matches text.now (view ere.now) span.from span.to) }
    ensures left { left.new ≤ left.old }
{
    let mut referred = Vec::new(alloc);
    put_numbers(ere, &mut referred)?;
    let site = Site {
        alloc,
        text,
        whole: ere,
        low: span.from,
        high: span.to,
        referred: referred.as_slice(),
    };
    Ok(is_found(site, Order::MoreFirst, left)? || is_found(site, Order::LessFirst, left)?)
}
