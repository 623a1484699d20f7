//! Expressions one behind the other: the parts of a concatenation, or the members of a repeat.
ghost use Rattle.std.specs.Prelude.{◌≡◌, ℕ, ◌+◌, ◌<◌, List, length, IfOk, IfSome};
ghost use Rattle.ere_refs.specs.Machine.{AreLives, AreMemberLives, ArePartLives, FollowsBy, IsFull, IsSmaller, IsStage, KeepsRoom, lives_count};
ghost use Rattle.ere_refs.specs.declared.row.Row.TheVariants.{Members, Parts};
ghost use Rattle.ere_tree.specs.View.{view};

use crate::live::{live_before, live_between, live_from};
use ere_tree::Ere;
use std::alloc::{AllocError, Global};

/// What stands in a row. Its stage is how many are gone; of members past the minimum without a most none is counted.
#[derive(Clone, Copy)]
pub(crate) enum Row<'a> {
    Parts(&'a [Ere]),
    Members(&'a Ere, u32, Option<u32>),
}

/// An expression that follows a stage, with the stage behind it, and what is read before and behind it.
#[derive(Clone, Copy)]
pub(crate) struct Next<'a, 'l> {
    pub(crate) ere: &'a Ere,
    /// Whether it mustn't be empty.
    pub(crate) further: bool,
    pub(crate) stage: usize,
    pub(crate) before: &'l [u32],
    pub(crate) behind: &'l [u32],
}

/// What follows a stage.
#[derive(Clone, Copy)]
pub(crate) enum Follows<'a, 'l> {
    End,
    Nothing,
    One(Next<'a, 'l>),
}

impl<'a> Row<'a> {
    /// What follows a stage, at the end of the part or before it.
    pub(crate) fn follows<'l>(
        self,
        lives: &'l [Vec<u32>],
        stage: usize,
        at_end: bool,
    ) -> Follows<'a, 'l>
        requires { length lives.now ≡ lives_count self }
        ensures fits { FollowsBy self.entry lives.now stage at_end result }
        ensures room { KeepsRoom self.entry result }
        ensures small { IsSmaller self.entry result }
    {
        match self {
            Row::Parts(parts) => parts_follow(parts, lives, stage, at_end),
            Row::Members(inner, least, most) => {
                members_follow(inner, least, most, lives, stage, at_end)
            }
        }
    }
}

/// What follows a stage of parts.
fn parts_follow<'a, 'l>(
    parts: &'a [Ere],
    lives: &'l [Vec<u32>],
    stage: usize,
    at_end: bool,
) -> Follows<'a, 'l>
    requires { length lives.now ≡ length parts.now + 1 }
    ensures fits { FollowsBy (Parts parts.entry) lives.now stage at_end result }
    ensures room { KeepsRoom (Parts parts.entry) result }
    ensures small { IsSmaller (Parts parts.entry) result }
{
    if stage >= parts.len() {
        return if at_end {
            Follows::End
        } else {
            Follows::Nothing
        };
    }
    Follows::One(Next {
        ere: &parts[stage],
        further: false,
        stage: stage + 1,
        before: lives[stage].as_slice(),
        behind: lives[stage + 1].as_slice(),
    })
}

/// Whether there may be no more members behind so many.
fn is_full(most: Option<u32>, stage: usize) -> bool
    ensures { IsFull most stage result }
{
    match most {
        None => false,
        Some(most) => stage >= most as usize,
    }
}

/// The stage behind a member.
fn stage_behind(least: u32, most: Option<u32>, stage: usize) -> usize
    ensures { IfSome most (λ m. stage < m) → IsStage least most stage result }
{
    match most {
        None => {
            if stage >= least as usize {
                stage
            } else {
                stage.saturating_add(1)
            }
        }
        Some(_) => stage.saturating_add(1),
    }
}

/// What follows a stage of members.
fn members_follow<'a, 'l>(
    inner: &'a Ere,
    least: u32,
    most: Option<u32>,
    lives: &'l [Vec<u32>],
    stage: usize,
    at_end: bool,
) -> Follows<'a, 'l>
    requires { length lives.now ≡ 2 }
    ensures fits { FollowsBy (Members inner.entry least most) lives.now stage at_end result }
    ensures room { KeepsRoom (Members inner.entry least most) result }
    ensures small { IsSmaller (Members inner.entry least most) result }
{
    let further = stage >= least as usize;
    if at_end && further {
        return Follows::End;
    }
    if is_full(most, stage) {
        return Follows::Nothing;
    }
    Follows::One(Next {
        ere: inner,
        further,
        stage: stage_behind(least, most, stage),
        before: lives[0].as_slice(),
        behind: lives[1].as_slice(),
    })
}

/// What is read from each stage of some parts on.
fn part_lives(alloc: Global, parts: &[Ere], behind: &[u32]) -> Result<Vec<Vec<u32>>, AllocError>
    ensures lives { IfOk result (λ lives. ArePartLives parts.now lives.items behind.now) }
    ensures count { IfOk result (λ lives. length lives.items ≡ length parts.now + 1) }
{
    let mut lives: Vec<Vec<u32>> = Vec::new(alloc);
    for stage in 0..parts.len() {
        lives.push(live_from(alloc, parts.split_at(stage).1, behind)?)?;
    }
    lives.push(Vec::from_slice(alloc, behind)?)?;
    Ok(lives)
}

/// What is read before a member and behind it.
fn member_lives(alloc: Global, inner: &Ere, behind: &[u32]) -> Result<Vec<Vec<u32>>, AllocError>
    ensures lives { IfOk result (λ lives. AreMemberLives (view inner.now) lives.items behind.now) }
    ensures count { IfOk result (λ lives. length lives.items ≡ 2) }
{
    let between = live_between(alloc, inner, behind)?;
    let mut lives: Vec<Vec<u32>> = Vec::new(alloc);
    lives.push(live_before(alloc, inner, between.as_slice())?)?;
    lives.push(between)?;
    Ok(lives)
}

/// What is read at each stage of a row: of members before one and behind one, of parts before each and behind the last.
pub(crate) fn lives_of(
    alloc: Global,
    row: Row<'_>,
    behind: &[u32],
) -> Result<Vec<Vec<u32>>, AllocError>
    ensures lives { IfOk result (λ lives. AreLives row.entry lives.items behind.now) }
    ensures count { IfOk result (λ lives. length lives.items ≡ lives_count row.entry) }
{
    match row {
        Row::Members(inner, _, _) => member_lives(alloc, inner, behind),
        Row::Parts(parts) => part_lives(alloc, parts, behind),
    }
}
