//! The tree of a list of prefixes.
ghost use Rattle.std.specs.Prelude.{◌≡◌, ◌+◌, ◌<◌, ◌≤◌, IfOk, IfSome, OnOk, length};
ghost use Rattle.prefix_tree.specs.Heads.{AreHeads};
ghost use Rattle.prefix_tree.specs.Prefix.{IsMeant, meant, taken};
ghost use Rattle.prefix_tree.specs.Tree.{IsTree, ended};
ghost use Rattle.prefix_tree.specs.Turns.{IsWholeTree, end_of, next_of};

use crate::heads::{heads_of, may_begin};
use crate::standing::Standing;
use crate::turns::Turns;
use std::alloc::Global;
use tt_base::{Bytes, NoMemory};

/// Up to so many prefixes are compared one by one, with no look at the tree.
const FEW: usize = 4;

/// A list of prefixes, and the tree that finds the longest one at a place.
#[derive(Drop)]
pub struct PrefixTree<'a> {
    pub prefixes: &'a [Bytes],
    turns: Turns,
    /// For each byte, whether a prefix may begin with it.
    heads: [bool; 256],
    ghost whole: { IsWholeTree turns prefixes.now },
    ghost begins: { AreHeads heads prefixes.now },
}

impl<'a> PrefixTree<'a> {
    ghost use Rattle.std.specs.Prelude.{◌≡◌};

    /// The tree of these prefixes.
    pub fn new(alloc: Global, prefixes: &'a [Bytes]) -> Result<PrefixTree<'a>, NoMemory>
        ensures { IfOk result (λ tree. tree.prefixes.now ≡ prefixes.now) }
    {
        let turns = turns_of(alloc, prefixes)?;
        let heads = heads_of(prefixes);
        Ok(PrefixTree {
            prefixes,
            turns,
            heads,
        })
    }

    /// The longest of the prefixes that stand at the front of a text, the first of two equal.
    pub fn longest(&self, text: &[u8]) -> Option<Standing>
        ensures longest { IsMeant self.now.prefixes.now text.now result }
        ensures value { result ≡ meant self.now.prefixes.now text.now }
        ensures within { IfSome result (λ one. one.length ≤ length text.now) }
        ensures among { IfSome result (λ one. one.index < length self.now.prefixes.now) }
    {
        if may_begin(&self.heads, text) {
            longest_of(&self.turns, self.prefixes, text)
        } else {
            None
        }
    }
}

/// The turns of all prefixes.
fn turns_of(alloc: Global, prefixes: &[Bytes]) -> Result<Turns, NoMemory>
    ensures { IfOk result (λ turns. IsWholeTree turns prefixes.now) }
{
    let mut turns = Turns::new(alloc);
    for index in 0..prefixes.len() {
        add(&mut turns, prefixes, index)?;
    }
    Ok(turns)
}

/// Adds the turns of the prefix with a number to those of the prefixes before it.
fn add(turns: &mut Turns, prefixes: &[Bytes], index: usize) -> Result<(), NoMemory>
    requires within { index < length prefixes.now }
    requires tree { IsTree (next_of turns.now) (end_of turns.now) prefixes.now index }
    ensures { OnOk result (IsTree (next_of turns.new) (end_of turns.new) prefixes.now (index + 1)) }
{
    let prefix = prefixes[index].as_slice();
    let mut owner = 0;
    for length in 0..prefix.len() {
        owner = turns.go_on(owner, length, prefix[length], index)?;
    }
    turns.end_at(owner, prefix.len(), index)?;
    Ok(())
}

/// The same where one of the prefixes may stand. A few prefixes need no turns.
fn longest_of(turns: &Turns, prefixes: &[Bytes], text: &[u8]) -> Option<Standing>
    requires { IsWholeTree turns.now prefixes.now }
    ensures { result ≡ meant prefixes.now text.now }
{
    if prefixes.len() <= FEW {
        longest_among(prefixes, text)
    } else {
        longest_in(turns, prefixes, text)
    }
}

/// The longest of the prefixes that stand at the front of a text, each of which is compared with it.
fn longest_among(prefixes: &[Bytes], text: &[u8]) -> Option<Standing>
    ensures { result ≡ meant prefixes.now text.now }
{
    let mut best = None;
    for index in 0..prefixes.len() {
        let prefix = prefixes[index].as_slice();
        best = taken(text.starts_with(prefix), index, prefix.len(), best);
    }
    best
}

/// A prefix of a number, if it stands and is longer than the best so far, or else that one.
#[inline]
fn taken(stands: bool, index: usize, length: usize, best: Option<Standing>) -> Option<Standing>
    ensures { result ≡ taken stands index length best }
{
    if !stands {
        return best;
    }
    match best {
        Some(before) if length <= before.length => best,
        _ => Some(Standing { index, length }),
    }
}

/// The longest of the prefixes of a tree that stand at the front of a text.
fn longest_in(turns: &Turns, prefixes: &[Bytes], text: &[u8]) -> Option<Standing>
    requires { IsWholeTree turns.now prefixes.now }
    ensures { result ≡ meant prefixes.now text.now }
{
    let mut best = None;
    let mut owner = 0;
    let mut length = 0;
    loop {
        best = ended(turns.end(owner, length), length, best);
        if length == text.len() {
            return best;
        }
        match turns.next(owner, length, text[length]) {
            None => return best,
            Some(next) => owner = next,
        }
        length += 1;
    }
}

/// The prefix that ends at a length, or else the one that ended before.
#[inline]
fn ended(end: Option<usize>, length: usize, before: Option<Standing>) -> Option<Standing>
    ensures { result ≡ ended end length before }
{
    match end {
        Some(index) => Some(Standing { index, length }),
        None => before,
    }
}
