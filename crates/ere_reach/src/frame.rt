//! What other groups hold, which an inside of a group leaves as it was.
ghost use Rattle.std.specs.Prelude.{◌≡◌, ℕ, true, IfOk, OnOk};
ghost use Rattle.std.specs.List.{Contains};
ghost use Rattle.ere_reach.specs.Memo.{HasSetIn, IsFramed, IsFramedBy};
ghost use Rattle.ere_tree.specs.View.{view};

use crate::budget::Budget;
use crate::held::{Held, part_of};
use crate::moving::sets_one;
use crate::rows::Rows;
use crate::site::Site;
use ere_tree::Ere;
use std::alloc::{AllocError, Global};

/// What groups hold before an inside, those that stand in it, and all that are read behind it.
#[derive(Clone, Copy)]
pub(crate) struct Frame<'h> {
    pub(crate) held: &'h [Held],
    pub(crate) own: &'h [u32],
    pub(crate) others: &'h [u32],
}

impl<'h> Frame<'h> {
    /// Whether nothing is taken from before the inside.
    pub(crate) fn is_empty(self) -> bool
        ensures { result ≡ true → (n : ℕ) → Contains self.entry.others.now n → Contains self.entry.own.now n }
    {
        for number in self.others {
            if !self.own.contains(number) {
                return false;
            }
        }
        true
    }

    /// Makes a list tell what another one does of the groups that stand in the inside, and of the rest what they held before.
    fn put_list(self, inside: &[Held], list: &mut Vec<Held>) -> Result<(), AllocError>
        ensures { OnOk result (IsFramedBy self.entry.own.now self.entry.others.now self.entry.held.now inside.now
            list.new.items) }
    {
        list.clear();
        for number in self.others {
            let from = if self.own.contains(number) {
                inside
            } else {
                self.held
            };
            if let Some(part) = part_of(from, *number) {
                list.push(Held {
                    number: *number,
                    part,
                })?;
            }
        }
        Ok(())
    }
}

/// Those of some groups that stand in the expression.
pub(crate) fn set_in(alloc: Global, ere: &Ere, numbers: &[u32]) -> Result<Vec<u32>, AllocError>
    ensures { IfOk result (λ own. HasSetIn (view ere.now) numbers.now own.items) }
{
    let mut own = Vec::new(alloc);
    for number in numbers {
        if sets_one(ere, &[*number]) {
            own.push(*number)?;
        }
    }
    Ok(own)
}

/// The rows of an inside, with what the other groups held before it.
pub(crate) fn framed(
    site: Site<'_>,
    inside: &Rows,
    frame: Frame<'_>,
    budget: &mut Budget,
) -> Result<Rows, AllocError>
    ensures { IfOk result (IsFramed frame.entry.own.now frame.entry.others.now frame.entry.held.now inside.now) }
{
    let mut found = Rows::new(site.alloc, site.low);
    let mut list = Vec::new(site.alloc);
    for row in &inside.rows {
        frame.put_list(row.held.as_slice(), &mut list)?;
        found.put(list.as_slice(), row.places.as_slice(), budget)?;
    }
    Ok(found)
}
