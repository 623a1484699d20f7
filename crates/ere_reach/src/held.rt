//! What groups hold that are still read.
ghost use Rattle.std.specs.Prelude.{◌≡◌, true, IfOk, OnOk};
ghost use Rattle.ere_reach.specs.Held.{IsKept, IsKeptWith, part_in};

use ere_tree::Cap;
use std::alloc::{AllocError, Global};

/// A group, and a part of the text that is the same as what it holds.
#[derive(Clone, Copy, Debug, PartialEq, Eq)]
pub(crate) struct Held {
    pub(crate) number: u32,
    pub(crate) part: Cap,
}

/// The part that a list has for a group.
pub(crate) fn part_of(held: &[Held], number: u32) -> Option<Cap>
    ensures { result ≡ part_in held.now number }
{
    for one in held {
        if one.number == number {
            return Some(one.part);
        }
    }
    None
}

/// The same list with only those groups that are read.
pub(crate) fn kept(alloc: Global, held: &[Held], live: &[u32]) -> Result<Vec<Held>, AllocError>
    ensures { IfOk result (λ found. IsKept live.now held.now found.items) }
{
    let mut all = Vec::new(alloc);
    for number in live {
        if let Some(part) = part_of(held, *number) {
            all.push(Held {
                number: *number,
                part,
            })?;
        }
    }
    Ok(all)
}

/// Makes a list the same as another one with only those groups that are read, of which one holds the part, or nothing that
/// could be read.
pub(crate) fn keep_with(
    list: &mut Vec<Held>,
    held: &[Held],
    live: &[u32],
    own: u32,
    part: Option<Cap>,
) -> Result<(), AllocError>
    ensures { OnOk result (IsKeptWith live.now own part held.now list.new.items) }
{
    list.clear();
    for number in live {
        let part = if *number == own {
            part
        } else {
            part_of(held, *number)
        };
        if let Some(part) = part {
            list.push(Held {
                number: *number,
                part,
            })?;
        }
    }
    Ok(())
}

/// Whether two lists are one.
pub(crate) fn are_same(one: &[Held], other: &[Held]) -> bool
    ensures { result ≡ true → one.now ≡ other.now }
{
    if one.len() != other.len() {
        return false;
    }
    for index in 0..one.len() {
        let (first, second) = (one[index], other[index]);
        let same = first.number == second.number
            && first.part.from == second.part.from
            && first.part.to == second.part.to;
        if !same {
            return false;
        }
    }
    true
}
