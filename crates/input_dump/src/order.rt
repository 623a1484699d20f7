//! Marks in the order of their offsets, and their lines.
ghost use Rattle.std.specs.Prelude.{◌≡◌, ◌≤◌, ◌^◌, All, IfOk, length, map};
ghost use Rattle.input_dump.specs.Dump.{by_offset, line_at, mark_line};
ghost use Rattle.input_dump.specs.Order.{AreAscending};

use crate::marking::Mark;
use crate::newlines::line_behind;
use std::alloc::{AllocError, Global};

/// The marks, as they come.
fn refs_of<'a>(alloc: Global, marks: &'a [Mark]) -> Result<Vec<&'a Mark>, AllocError>
    ensures { IfOk result (λ refs. map (λ mark. mark.now) refs.items ≡ marks.now) }
{
    let mut refs = Vec::with_capacity(alloc, marks.len())?;
    for mark in marks {
        refs.push(mark)?;
    }
    Ok(refs)
}

/// The marks of a text of a size by their offsets, and those of one offset in order.
pub(crate) fn by_offset<'a>(
    alloc: Global,
    size: usize,
    marks: &'a [Mark],
) -> Result<Vec<&'a Mark>, AllocError>
    requires { All (λ mark. mark.at ≤ size) marks.now }
    ensures exact { IfOk result (λ order. map (λ mark. mark.now) order.items ≡ by_offset size marks.now) }
    ensures within { IfOk result (λ order. All (λ mark. mark.now.at ≤ size) order.items) }
    ensures ascending { IfOk result (λ order. AreAscending (map (λ mark. mark.now.at) order.items)) }
{
    let mut order = refs_of(alloc, marks)?;
    order.sort_by_key(|mark| mark.at)?;
    Ok(order)
}

/// The lines of marks in order, and an offset whose line is known: that of the last mark, or the first one.
#[derive(Drop)]
pub(crate) struct Lines {
    pub(crate) all: Vec<u64>,
    pub(crate) last: u64,
    pub(crate) from: usize,
}

/// The lines of marks in order.
pub(crate) fn lines_of(alloc: Global, text: &[u8], order: &[&Mark]) -> Result<Lines, AllocError>
    requires short { length text.now ≤ 2 ^ 30 }
    requires within { All (λ mark. mark.now.at ≤ length text.now) order.now }
    requires ascending { AreAscending (map (λ mark. mark.now.at) order.now) }
    ensures exact { IfOk result (λ lines. lines.all.items ≡ map (λ mark. mark_line text.now mark.now) order.now) }
    ensures within { IfOk result (λ lines. lines.from ≤ length text.now) }
    ensures known { IfOk result (λ lines. lines.last ≡ line_at text.now lines.from) }
{
    let mut all = Vec::with_capacity(alloc, order.len())?;
    let mut last = 1;
    let mut from = 0;
    for mark in order {
        last = line_behind(text, last, from, mark.at);
        from = mark.at;
        all.push(last)?;
    }
    Ok(Lines { all, last, from })
}
