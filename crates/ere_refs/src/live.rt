//! Which groups are still read: what behind a part is the same whatever other groups hold.
ghost use Rattle.std.specs.Prelude.{◌≡◌, ◌<◌, ◌≤◌, ◌-◌, ◌∷◌, [], ℕ, true, map, length, get_or, IfOk, OnOk};
ghost use Rattle.std.specs.List.{Contains};
ghost use Rattle.ere_refs.specs.Live as live;
ghost use Rattle.ere_refs.specs.Live.{HasRead, reads, reads_all};
ghost use Rattle.ere_refs.specs.Machine.{AgreeOn};
ghost use Rattle.ere_refs.specs.Refers.{HasEach, OneRefers, Refers};
ghost use Rattle.ere_tree.specs.Tree.{trees_of};
ghost use Rattle.ere_tree.specs.View.{view};

use ere_tree::{Cap, Ere};
use std::alloc::{AllocError, Global};

/// Whether each derivation of the expression sets the group of this number.
#[cycle(surely)]
pub(crate) fn surely_sets(ere: &Ere, number: u32) -> bool
    ensures { result ≡ live.surely_sets (view ere.now) number }
{
    match ere {
        Ere::Empty | Ere::Plain(_) | Ere::Set(_) => false,
        Ere::LineStart | Ere::LineEnd | Ere::Ref { .. } => false,
        Ere::Cat(parts) => one_surely_sets(parts.as_slice(), number),
        Ere::Alt(choices) => all_surely_set(choices.as_slice(), number),
        Ere::Repeat { inner, least, .. } => *least > 0 && surely_sets(inner, number),
        Ere::Group { number: own, inner } => *own == number || surely_sets(inner, number),
    }
}

/// The same of at least one of them.
#[cycle(surely)]
fn one_surely_sets(all: &[Ere], number: u32) -> bool
    ensures { result ≡ live.one_surely_sets (trees_of (map view all.now)) number }
{
    for one in all {
        if surely_sets(one, number) {
            return true;
        }
    }
    false
}

/// The same of all of them.
#[cycle(surely)]
fn all_surely_set(all: &[Ere], number: u32) -> bool
    ensures { result ≡ live.all_surely_set (trees_of (map view all.now)) number }
{
    for one in all {
        if !surely_sets(one, number) {
            return false;
        }
    }
    true
}

/// Adds a number that isn't there.
fn put_number(numbers: &mut Vec<u32>, number: u32) -> Result<(), AllocError>
    ensures there { OnOk result (Contains numbers.new.items number) }
    ensures kept { OnOk result ((n : ℕ) → Contains numbers.old.items n → Contains numbers.new.items n) }
{
    if !numbers.as_slice().contains(&number) {
        numbers.push(number)?;
    }
    Ok(())
}

/// Adds the numbers that the expression refers to.
#[cycle(put_refs)]
fn put_refs(ere: &Ere, numbers: &mut Vec<u32>) -> Result<(), AllocError>
    ensures there { OnOk result ((n : ℕ) → Refers (view ere.now) n → Contains numbers.new.items n) }
    ensures kept { OnOk result ((n : ℕ) → Contains numbers.old.items n → Contains numbers.new.items n) }
{
    match ere {
        Ere::Empty | Ere::Plain(_) | Ere::Set(_) => Ok(()),
        Ere::LineStart | Ere::LineEnd => Ok(()),
        Ere::Cat(parts) => put_all_refs(parts.as_slice(), numbers),
        Ere::Alt(choices) => put_all_refs(choices.as_slice(), numbers),
        Ere::Repeat { inner, .. } => put_refs(inner, numbers),
        Ere::Group { inner, .. } => put_refs(inner, numbers),
        Ere::Ref { number, .. } => put_number(numbers, *number),
    }
}

/// The same of some expressions.
#[cycle(put_refs)]
fn put_all_refs(all: &[Ere], numbers: &mut Vec<u32>) -> Result<(), AllocError>
    ensures there { OnOk result ((n : ℕ) → OneRefers (trees_of (map view all.now)) n → Contains numbers.new.items n) }
    ensures kept { OnOk result ((n : ℕ) → Contains numbers.old.items n → Contains numbers.new.items n) }
{
    for one in all {
        put_refs(one, numbers)?;
    }
    Ok(())
}

/// What is read from before an expression on: what it refers to, and what is read behind it and isn't surely set in it.
pub(crate) fn live_before(alloc: Global, ere: &Ere, behind: &[u32]) -> Result<Vec<u32>, AllocError>
    ensures { IfOk result (λ found. HasRead (reads (view ere.now)) behind.now found.items) }
{
    let mut live: Vec<u32> = Vec::new(alloc);
    put_refs(ere, &mut live)?;
    for number in behind {
        if !surely_sets(ere, *number) {
            put_number(&mut live, *number)?;
        }
    }
    Ok(live)
}

/// The same of expressions one behind the other.
pub(crate) fn live_from(alloc: Global, all: &[Ere], behind: &[u32]) -> Result<Vec<u32>, AllocError>
    ensures { IfOk result (λ found. HasRead (reads_all (trees_of (map view all.now))) behind.now found.items) }
{
    match all.split_first() {
        None => Vec::from_slice(alloc, behind),
        Some((first, others)) => {
            let later = live_from(alloc, others, behind)?;
            live_before(alloc, first, later.as_slice())
        }
    }
}

/// What is read behind a member of a repeat: what the next one refers to, and what is read behind the repeat.
pub(crate) fn live_between(
    alloc: Global,
    inner: &Ere,
    behind: &[u32],
) -> Result<Vec<u32>, AllocError>
    ensures refers { IfOk result (λ found. HasEach (Refers (view inner.now)) found.items) }
    ensures behind { IfOk result (λ found. HasEach (Contains behind.now) found.items) }
{
    let mut live = Vec::from_slice(alloc, behind)?;
    put_refs(inner, &mut live)?;
    Ok(live)
}

/// What a list has for a group. None also where it has none of this number.
pub(crate) fn held_for(caps: &[Option<Cap>], number: u32) -> Option<Cap>
    ensures { 0 < number → number ≤ length caps.now → result ≡ get_or caps.now (number - 1) result }
{
    if number == 0 {
        return None;
    }
    match caps.get((number - 1) as usize) {
        Some(held) => *held,
        None => None,
    }
}

/// Whether two groups hold the same.
fn is_same(one: Option<Cap>, other: Option<Cap>) -> bool
    ensures { result ≡ true → one ≡ other }
{
    match one {
        None => other.is_none(),
        Some(cap) => match other {
            None => false,
            Some(second) => cap.from == second.from && cap.to == second.to,
        },
    }
}

/// Whether two lists have a group of this number, and hold the same for it.
fn agree_on(number: u32, one: &[Option<Cap>], other: &[Option<Cap>]) -> bool
    ensures { result ≡ true → AgreeOn (number ∷ []) one.now other.now }
{
    let index = number as usize;
    if index == 0 || index > one.len() || index > other.len() {
        return false;
    }
    is_same(one[index - 1], other[index - 1])
}

/// Whether two lists hold the same for each of some groups.
pub(crate) fn agree(live: &[u32], one: &[Option<Cap>], other: &[Option<Cap>]) -> bool
    ensures { result ≡ true → AgreeOn live.now one.now other.now }
{
    for number in live {
        if !agree_on(*number, one, other) {
            return false;
        }
    }
    true
}
