//! What an expression matches from one place.
ghost use Rattle.std.specs.Prelude.{◌≡◌, ◌+◌, ◌<◌, ◌≤◌, ◌^◌, true, false, length, IfOk};
ghost use Rattle.ere_refs.specs.Lists.{IsFirst};
ghost use Rattle.ere_refs.specs.Over.{TellsBest};
ghost use Rattle.ere_refs.specs.Refers.{refs_fit};
ghost use Rattle.ere_relaxed.specs.Relaxed.{SpansAll};
ghost use Rattle.ere_tree.specs.Shape.{greatest_group, has_refs};
ghost use Rattle.ere_tree.specs.View.{view};

use crate::ends::ends_between;
use crate::held::{Part, none_held};
use crate::lists::over;
use crate::site::Site;
use crate::tries::Tries;
use ere_tree::{Cap, Caps, Ere};
use std::alloc::AllocError;

/// Where a match ends, and what its groups hold, with offsets of the text.
#[derive(Drop, Debug)]
pub struct Found {
    pub to: usize,
    pub groups: Caps,
}

/// The first of some lists.
fn first_of(lists: Vec<Vec<Option<Cap>>>) -> Option<Vec<Option<Cap>>>
    ensures { IsFirst lists.items result }
{
    for held in lists {
        return Some(held);
    }
    None
}

/// The preferred match that begins where the span does, and ends where it does at the latest. `free` is an expression without
/// references that spans whatever this one spans. The slice begins in a text at `start`.
pub fn try_from(
    ere: &Ere,
    free: &Ere,
    slice: &[u8],
    start: usize,
    span: Cap,
    tries: &mut Tries,
) -> Result<Option<Found>, AllocError>
    requires refs { refs_fit (greatest_group (view ere.now)) (view ere.now) ≡ true }
    requires no_refs { has_refs (view free.now) ≡ false }
    requires spans { SpansAll (view ere.now) (view free.now) }
    requires order { span.from ≤ span.to }
    requires within { span.to ≤ length slice.now }
    requires fits { start + length slice.now < 2 ^ 64 }
    ensures { IfOk result (TellsBest slice.now (view ere.now) start span.from span.to) }
{
    let ends = ends_between(tries.alloc, free, slice, span.from, span.to)?;
    let none = none_held(tries.alloc, ere.groups())?;
    for back in 0..span.to - span.from + 1 {
        let (from, to) = (span.from, span.to - back);
        if ends.seen.has(to) {
            tries.take(1)?;
            let part = Part { start, from, to };
            let site = Site {
                text: slice,
                part,
                caps: none.as_slice(),
                live: &[],
            };
            let lists = over(ere, false, site, tries)?;
            if let Some(held) = first_of(lists) {
                return Ok(Some(Found {
                    to,
                    groups: Caps::from_vec(held),
                }));
            }
        }
    }
    Ok(None)
}
