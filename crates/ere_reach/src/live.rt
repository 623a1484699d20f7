//! Which groups are still read: what behind a part is the same whatever other groups hold.
ghost use Rattle.std.specs.Prelude.{◌≡◌, ◌≢◌, ◌↔◌, ℕ, ◌+◌, ◌-◌, ◌<◌, ◌≤◌, Vec, map, length, drop, get_or, IfOk, OnOk};
ghost use Rattle.std.specs.Global.{Global};
ghost use Rattle.std.specs.List.{Contains};
ghost use Rattle.ere_reach.specs.Live as live;
ghost use Rattle.ere_reach.specs.Live.{AreLast, AreRead, reads};
ghost use Rattle.ere_reach.specs.Refers.{AddsRefs, HasMore, IsWithout, Refers};
ghost use Rattle.ere_tree.specs.Tree.{trees_of};
ghost use Rattle.ere_tree.specs.View.{view};

use ere_tree::Ere;
use std::alloc::{AllocError, Global};

/// Whether each derivation of the expression sets the group of this number.
#[cycle(surely)]
pub(crate) fn surely_sets(ere: &Ere, number: u32) -> bool
    ensures { result ≡ live.surely_sets (view ere.now) number }
{
    match ere {
        Ere::Empty | Ere::Plain(_) | Ere::Set(_) => false,
        Ere::LineStart | Ere::LineEnd | Ere::Ref { .. } => false,
        Ere::Cat(parts) => one_surely_sets(parts.as_slice(), number),
        Ere::Alt(choices) => all_surely_set(choices.as_slice(), number),
        Ere::Repeat { inner, least, .. } => *least > 0 && surely_sets(inner, number),
        Ere::Group { number: own, inner } => *own == number || surely_sets(inner, number),
    }
}

/// The same of at least one of them.
#[cycle(surely)]
fn one_surely_sets(all: &[Ere], number: u32) -> bool
    ensures { result ≡ live.one_surely_sets (trees_of (map view all.now)) number }
{
    for one in all {
        if surely_sets(one, number) {
            return true;
        }
    }
    false
}

/// The same of all of them.
#[cycle(surely)]
fn all_surely_set(all: &[Ere], number: u32) -> bool
    ensures { result ≡ live.all_surely_set (trees_of (map view all.now)) number }
{
    for one in all {
        if !surely_sets(one, number) {
            return false;
        }
    }
    true
}

/// Adds a number that isn't there.
fn put_number(numbers: &mut Vec<u32>, number: u32) -> Result<(), AllocError>
    ensures { OnOk result (HasMore (λ n. number ≡ n) numbers.old.items numbers.new.items) }
{
    if !numbers.as_slice().contains(&number) {
        numbers.push(number)?;
    }
    Ok(())
}

/// Adds the numbers that the expression refers to.
#[cycle(put_refs)]
fn put_refs(ere: &Ere, numbers: &mut Vec<u32>) -> Result<(), AllocError>
    ensures { OnOk result (HasMore (Refers (view ere.now)) numbers.old.items numbers.new.items) }
{
    match ere {
        Ere::Empty | Ere::Plain(_) | Ere::Set(_) => Ok(()),
        Ere::LineStart | Ere::LineEnd => Ok(()),
        Ere::Cat(parts) => put_all_refs(parts.as_slice(), numbers),
        Ere::Alt(choices) => put_all_refs(choices.as_slice(), numbers),
        Ere::Repeat { inner, .. } => put_refs(inner, numbers),
        Ere::Group { inner, .. } => put_refs(inner, numbers),
        Ere::Ref { number, .. } => put_number(numbers, *number),
    }
}

/// The same of some expressions.
#[cycle(put_refs)]
fn put_all_refs(all: &[Ere], numbers: &mut Vec<u32>) -> Result<(), AllocError>
    ensures { OnOk result (AddsRefs (map view all.now) numbers.old.items numbers.new.items) }
{
    for one in all {
        put_refs(one, numbers)?;
    }
    Ok(())
}

/// What is read from before an expression on: what it refers to, and what is read behind it and isn't surely set in it.
pub(crate) fn live_before(alloc: Global, ere: &Ere, behind: &[u32]) -> Result<Vec<u32>, AllocError>
    ensures { IfOk result (λ found. AreRead (reads (view ere.now)) behind.now found.items) }
{
    let mut live: Vec<u32> = Vec::new(alloc);
    put_refs(ere, &mut live)?;
    for number in behind {
        if !surely_sets(ere, *number) {
            put_number(&mut live, *number)?;
        }
    }
    Ok(live)
}

/// What is read from before so many of the last expressions on, where the lists tell it of each count but none.
pub(crate) fn live_of<'l>(lives: &'l [Vec<u32>], count: usize, behind: &'l [u32]) -> &'l [u32]
    requires { count ≤ length lives.now }
    ensures none { count ≡ 0 → result.now ≡ behind.now }
    ensures some { (one : Vec ℕ Global) → 0 < count → one ≡ get_or lives.now (count - 1) one → result.now ≡ one.items }
{
    match count {
        0 => behind,
        _ => lives[count - 1].as_slice(),
    }
}

/// What is read from before the last of some expressions on: before the last one, the last two, and so on up to all.
pub(crate) fn lives_from(
    alloc: Global,
    all: &[Ere],
    behind: &[u32],
) -> Result<Vec<Vec<u32>>, AllocError>
    ensures count { IfOk result (λ lives. length lives.items ≡ length all.now) }
    ensures read { IfOk result (λ lives. AreLast all.now behind.now lives.items (length all.now)) }
{
    let mut lives = Vec::with_capacity(alloc, all.len())?;
    for count in 0..all.len() {
        let ere = &all[all.len() - 1 - count];
        let before = live_before(alloc, ere, live_of(lives.as_slice(), count, behind))?;
        lives.push(before)?;
    }
    Ok(lives)
}

/// What is read behind a member of a repeat: what the next one refers to, and what is read behind the repeat.
pub(crate) fn live_between(
    alloc: Global,
    inner: &Ere,
    behind: &[u32],
) -> Result<Vec<u32>, AllocError>
    ensures { IfOk result (λ found. HasMore (Refers (view inner.now)) behind.now found.items) }
{
    let mut live = Vec::from_slice(alloc, behind)?;
    put_refs(inner, &mut live)?;
    Ok(live)
}

/// The same numbers without one.
pub(crate) fn without(alloc: Global, numbers: &[u32], own: u32) -> Result<Vec<u32>, AllocError>
    ensures { IfOk result (λ found. IsWithout own numbers.now found.items) }
{
    let mut others = Vec::new(alloc);
    for number in numbers {
        if *number != own {
            others.push(*number)?;
        }
    }
    Ok(others)
}
