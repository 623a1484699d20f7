//! The ends of an expression from some places, and the greatest from one.
ghost use Rattle.std.specs.Prelude.{◌≡◌, ◌≤◌, true, length, IfOk};
ghost use Rattle.std.specs.List.{All};
ghost use Rattle.ere_reach.specs.Leads.{EndsNowhere, FitsText, TellsEnd, TellsEnds};
ghost use Rattle.ere_reach.specs.Rows.{IsGreatest, IsIn};
ghost use Rattle.ere_tree.specs.View.{view};

use crate::budget::Budget;
use crate::memo::Memo;
use crate::reach::reach;
use crate::rows::Rows;
use crate::site::Site;
use ere_tree::{Cap, Ere};
use std::alloc::{AllocError, Global};

/// The greatest place of some rows.
fn greatest_place(rows: &Rows) -> Option<usize>
    ensures { IsGreatest rows.now result }
{
    let mut greatest: Option<usize> = None;
    for row in &rows.rows {
        for place in &row.places {
            greatest = match greatest {
                Some(old) if old >= *place => Some(old),
                _ => Some(*place),
            };
        }
    }
    greatest
}

/// Rows with the ends of an expression that begins at one of the places, where no group holds anything.
fn ends_from(
    site: Site<'_>,
    ere: &Ere,
    places: &[usize],
    budget: &mut Budget,
) -> Result<Rows, AllocError>
    requires fits { FitsText site }
    requires inside { All (IsIn site.low site.high) places.now }
    ensures { IfOk result (TellsEnds site.entry (view ere.now) places.now) }
{
    let mut start = Rows::new(site.alloc, site.low);
    start.put(&[], places, budget)?;
    let mut memo = Memo::new(site.alloc);
    let found = reach(site, ere, &start, &[], &mut memo, budget)?;
    budget.release(start.len());
    Ok(found)
}

/// The greatest place up to `high` at which the expression ends that begins at `low`, in a text from its start. An error is want of
/// memory, or a budget that is spent.
pub fn greatest_end(
    alloc: Global,
    ere: &Ere,
    text: &[u8],
    low: usize,
    high: usize,
    budget: &mut Budget,
) -> Result<Option<usize>, AllocError>
    requires order { low ≤ high }
    requires inside { high ≤ length text.now }
    ensures { IfOk result (TellsEnd text.now (view ere.now) low high) }
{
    let site = Site {
        alloc,
        text,
        low,
        high,
    };
    let found = ends_from(site, ere, &[low], budget)?;
    budget.release(found.len());
    Ok(greatest_place(&found))
}

/// Whether the expression ends nowhere in the span that begins at one of the places, which lie in it. False tells nothing. An
/// error is as before.
pub fn ends_nowhere(
    alloc: Global,
    ere: &Ere,
    text: &[u8],
    span: Cap,
    places: &[usize],
    budget: &mut Budget,
) -> Result<bool, AllocError>
    requires places { All (IsIn span.from span.to) places.now }
    requires inside { span.to ≤ length text.now }
    ensures { IfOk result (λ none. none ≡ true → EndsNowhere text.now (view ere.now) places.now span.to) }
{
    let site = Site {
        alloc,
        text,
        low: span.from,
        high: span.to,
    };
    let found = ends_from(site, ere, places, budget)?;
    budget.release(found.len());
    Ok(found.len() == 0)
}
