//! A level of an expression that is being read: the whole, or a group whose `)` has not come.
ghost use Rattle.std.specs.Prelude.{◌≡◌, None, IfOk, OnOk, map};
ghost use Rattle.ere_tree.specs.Grammar.{branch_of, either_of, repeated};
ghost use Rattle.ere_tree.specs.Levels.{new_level, with_letter, with_run_ended, with_part, with_branch_ended, with_bar, with_item, tree_of, level_view};
ghost use Rattle.ere_tree.specs.Token as atoms;
ghost use Rattle.ere_tree.specs.View.{view};

use crate::bound::Bound;
use crate::case::{is_folded, letter};
use crate::ere::{ByteRun, Ere, EreList};
use std::alloc::{AllocError, Global};
use std::mem;

/// What stands directly before a place in its level.
#[derive(Clone, Copy, Debug, PartialEq, Eq)]
pub(crate) enum Last {
    Nothing,
    Bar,
    Part,
}

/// The whole, or an open group: its closed branches, and the parts of the branch at hand. Bytes with no bound
/// that follow each other wait in `run`.
#[derive(Drop)]
pub(crate) struct Level {
    pub(crate) at: usize,
    pub(crate) number: u32,
    pub(crate) last: Last,
    branches: Vec<Ere>,
    parts: Vec<Ere>,
    run: Vec<u8>,
}

/// A branch of these parts.
fn branch_from(mut parts: Vec<Ere>) -> Ere
    ensures { view result ≡ branch_of (map view parts.items) }
{
    if parts.len() > 1 {
        return Ere::Cat(EreList::from_vec(parts));
    }
    match parts.pop() {
        Some(part) => part,
        None => Ere::Empty,
    }
}

/// The alternatives of these branches.
fn either_from(mut branches: Vec<Ere>) -> Ere
    ensures { view result ≡ either_of (map view branches.items) }
{
    if branches.len() > 1 {
        return Ere::Alt(EreList::from_vec(branches));
    }
    match branches.pop() {
        Some(branch) => branch,
        None => Ere::Empty,
    }
}

/// The expression with the bound behind it.
pub(crate) fn repeat(alloc: Global, ere: Ere, bound: Option<Bound>) -> Result<Ere, AllocError>
    ensures { IfOk result (λ made. view made ≡ repeated bound (view ere)) }
{
    match bound {
        None => Ok(ere),
        Some(Bound { least, most }) => Ok(Ere::Repeat {
            inner: Box::new(alloc, ere)?,
            least,
            most,
        }),
    }
}

impl Level {
    /// A level in which nothing has been read.
    pub(crate) fn new(alloc: Global, at: usize, number: u32) -> Level
        ensures { level_view result ≡ new_level at number }
    {
        Level {
            at,
            number,
            last: Last::Nothing,
            branches: Vec::new(alloc),
            parts: Vec::new(alloc),
            run: Vec::new(alloc),
        }
    }

    /// Adds a byte that may be joined with those before it.
    fn add_letter(&mut self, byte: u8) -> Result<(), AllocError>
        ensures { OnOk result (level_view self.new ≡ with_letter byte (level_view self.old)) }
    {
        self.last = Last::Part;
        self.run.push(byte)?;
        Ok(())
    }

    /// Adds a byte with no bound. With `fold` a letter stands for both its cases.
    pub(crate) fn add_byte(&mut self, alloc: Global, byte: u8, fold: bool) -> Result<(), AllocError>
        ensures { OnOk result (level_view self.new ≡ with_item fold (atoms.byte byte) None (level_view self.old)) }
    {
        if is_folded(fold, byte) {
            self.add_part(alloc, Ere::Set(letter(byte)))
        } else {
            self.add_letter(byte)
        }
    }

    /// Makes the bytes that wait a part.
    fn end_run(&mut self, alloc: Global) -> Result<(), AllocError>
        ensures { OnOk result (level_view self.new ≡ with_run_ended (level_view self.old)) }
    {
        if self.run.is_empty() {
            return Ok(());
        }
        let run = mem::replace(&mut self.run, Vec::new(alloc));
        self.parts.push(Ere::Plain(ByteRun::from_vec(run)))?;
        Ok(())
    }

    /// Adds a part.
    pub(crate) fn add_part(&mut self, alloc: Global, part: Ere) -> Result<(), AllocError>
        ensures { OnOk result (level_view self.new ≡ with_part (view part) (level_view self.old)) }
    {
        self.end_run(alloc)?;
        self.last = Last::Part;
        self.parts.push(part)?;
        Ok(())
    }

    /// Ends the branch at hand.
    fn end_branch(&mut self, alloc: Global) -> Result<(), AllocError>
        ensures { OnOk result (level_view self.new ≡ with_branch_ended (level_view self.old)) }
    {
        self.end_run(alloc)?;
        let parts = mem::replace(&mut self.parts, Vec::new(alloc));
        self.branches.push(branch_from(parts))?;
        Ok(())
    }

    /// Ends the branch at hand, and begins another.
    pub(crate) fn add_bar(&mut self, alloc: Global) -> Result<(), AllocError>
        ensures { OnOk result (level_view self.new ≡ with_bar (level_view self.old)) }
    {
        self.end_branch(alloc)?;
        self.last = Last::Bar;
        Ok(())
    }

    /// The alternatives that were read.
    pub(crate) fn finish(mut self, alloc: Global) -> Result<Ere, AllocError>
        ensures { IfOk result (λ ere. view ere ≡ tree_of (level_view self)) }
    {
        self.end_branch(alloc)?;
        let Level { branches, .. } = self;
        Ok(either_from(branches))
    }
}
