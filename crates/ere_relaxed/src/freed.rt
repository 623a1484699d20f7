//! The expression with the references to one group alone.
ghost use Rattle.std.specs.Prelude.{◌≡◌, map, IfOk};
ghost use Rattle.ere_tree.specs.Tree.{trees_of};
ghost use Rattle.ere_tree.specs.View.{view};
ghost use Rattle.ere_relaxed.specs.CopiesView.{copies_of};
ghost use Rattle.ere_relaxed.specs.Freed.{AllStandFor, AreFreed, IsFreed};

use crate::copies::GroupCopy;
use crate::relaxing::{copies_for, put_numbers, referred};
use ere_tree::{Ere, EreList};
use std::alloc::{AllocError, Global};

/// The expression in which references to other groups gave way to the copies of their groups, or to any text.
#[cycle(freed)]
fn freed_by(alloc: Global, ere: &Ere, kept: u32, copies: &[GroupCopy]) -> Result<Ere, AllocError>
    ensures { IfOk result (λ made. IsFreed (copies_of copies.now) (view ere.now) (view made)) }
{
    match ere {
        Ere::Cat(parts) => {
            let all = all_freed_by(alloc, parts.as_slice(), kept, copies)?;
            Ok(Ere::Cat(EreList::from_vec(all)))
        }
        Ere::Alt(choices) => {
            let all = all_freed_by(alloc, choices.as_slice(), kept, copies)?;
            Ok(Ere::Alt(EreList::from_vec(all)))
        }
        Ere::Repeat { inner, least, most } => Ok(Ere::Repeat {
            inner: Box::new(alloc, freed_by(alloc, inner, kept, copies)?)?,
            least: *least,
            most: *most,
        }),
        Ere::Group { number, inner } => Ok(Ere::Group {
            number: *number,
            inner: Box::new(alloc, freed_by(alloc, inner, kept, copies)?)?,
        }),
        Ere::Ref { number, fold } if *number == kept => Ok(Ere::Ref {
            number: *number,
            fold: *fold,
        }),
        Ere::Ref { number, fold } => referred(alloc, *number, *fold, copies),
        Ere::Empty => Ok(Ere::Empty),
        Ere::Plain(run) => Ok(Ere::Plain(run.copy(alloc)?)),
        Ere::Set(set) => Ok(Ere::Set(*set)),
        Ere::LineStart => Ok(Ere::LineStart),
        Ere::LineEnd => Ok(Ere::LineEnd),
    }
}

/// All of them.
#[cycle(freed)]
fn all_freed_by(
    alloc: Global,
    all: &[Ere],
    kept: u32,
    copies: &[GroupCopy],
) -> Result<Vec<Ere>, AllocError>
    ensures { IfOk result (λ made. AreFreed (copies_of copies.now) (trees_of (map view all.now))
        (trees_of (map view made.items))) }
{
    let mut made = Vec::with_capacity(alloc, all.len())?;
    for one in all {
        made.push(freed_by(alloc, one, kept, copies)?)?;
    }
    Ok(made)
}

/// For each group that is referred to, where there are several, the expression with the references to it alone. In place of each
/// other one stands the expression of its group, or any text.
pub fn by_groups(alloc: Global, ere: &Ere) -> Result<Vec<Ere>, AllocError>
    ensures { IfOk result (λ made. AllStandFor (view ere.now) made.items) }
{
    let mut numbers = Vec::new(alloc);
    put_numbers(ere, &mut numbers)?;
    let mut all = Vec::new(alloc);
    if numbers.len() < 2 {
        return Ok(all);
    }
    let copies = copies_for(alloc, ere)?;
    for number in &numbers {
        all.push(freed_by(alloc, ere, *number, copies.as_slice())?)?;
    }
    Ok(all)
}
