//! Regions of NOTs.
ghost use Rattle.std.specs.Prelude.{◌≡◌, ◌≤◌, ◌++◌, true, All, IfOk, OnOk, drop, length};
ghost use Rattle.check_group.specs.Changes.{IsReady};
ghost use Rattle.check_group.specs.Region.{AreFixed, AreOf, IsFixed, IsToldAbsent, LackPlain, excluded_by, excluded_in, region_in};
ghost use Rattle.pattern_parse.specs.PieceView.{items_view};

use crate::directive::Check;
use crate::fault::{Fault, FaultKind};
use ere_auto::Steps;
use pattern_parse::{Frame, Pattern, Piece};
use pattern_scan::{Context, Sought, seek};
use std::alloc::Global;
use std::sync::ledger::Ledger;
use text_windows::Windows;
use tt_base::{Items, NoMemory};

/// From how many NOTs on a text is read for its windows first, and how many bytes it has to have.
const MANY: usize = 16;

const LONG: usize = 1 << 16;

/// The fault of a NOT whose search answers so, if it is one.
fn excluded_by(answer: Sought) -> Option<FaultKind>
    ensures { result ≡ excluded_by answer }
{
    match answer {
        Sought::Found { span, fresh: _ } => Some(FaultKind::Excluded { found: span.from }),
        Sought::Absent => None,
        Sought::UndefinedNames(names) => Some(FaultKind::Undefined(names)),
        Sought::Range => Some(FaultKind::Range),
        Sought::ZeroDivisor => Some(FaultKind::ZeroDivisor),
        Sought::Unreadable(span) => Some(FaultKind::Unreadable { found: span.from }),
    }
}

/// The windows of a slice, where so many NOTs are sought in it that it pays to know them.
fn windows_of(alloc: Global, nots: &[Check], slice: &[u8]) -> Result<Option<Windows>, NoMemory>
    ensures { IfOk result (AreOf slice.now) }
{
    if nots.len() < MANY || slice.len() < LONG {
        return Ok(None);
    }
    Ok(Some(Windows::of(alloc, slice)?))
}

/// Whether pieces are the same whatever variables hold.
fn are_fixed(pieces: &[Piece]) -> bool
    ensures { result ≡ true → AreFixed (items_view pieces.now) }
{
    for piece in pieces {
        match piece {
            Piece::Plain(_) => {}
            Piece::Regex(_) => {}
            Piece::Define { .. } => {}
            Piece::Recall { .. } => return false,
            Piece::Num { .. } => return false,
        }
    }
    true
}

/// Whether a pattern is the same whatever variables hold, and its plain pieces are sought as they stand.
fn is_fixed(pattern: &Pattern) -> bool
    ensures { result ≡ true → IsFixed pattern.now }
{
    if pattern.fold {
        return false;
    }
    match pattern.frame {
        Frame::Open => are_fixed(pattern.pieces.as_slice()),
        Frame::Spaced | Frame::Tight => false,
    }
}

/// Whether windows tell that a plain piece doesn't stand in their text.
fn lack_a_piece(windows: &Windows, pieces: &[Piece]) -> bool
    ensures { result ≡ true → LackPlain windows.now (items_view pieces.now) }
{
    for piece in pieces {
        if let Piece::Plain(run) = piece {
            if windows.lack(run.as_slice()) {
                return true;
            }
        }
    }
    false
}

/// Whether windows tell that no match of a pattern is in their text, since a plain piece of it isn't.
fn lack_pattern(windows: &Windows, pattern: &Pattern) -> bool
    ensures fixed { result ≡ true → IsFixed pattern.now }
    ensures lack { result ≡ true → LackPlain windows.now (items_view pattern.now.pieces) }
{
    is_fixed(pattern) && lack_a_piece(windows, pattern.pieces.as_slice())
}

/// Whether the windows of the slice that begins at an offset tell that a pattern isn't there.
fn is_told_absent(known: &Option<Windows>, pattern: &Pattern) -> bool
    ensures { result ≡ true → IsToldAbsent known.now pattern.now }
{
    match known {
        Some(windows) => lack_pattern(windows, pattern),
        None => false,
    }
}

/// The fault of a NOT in the slice from an offset to the text's end, if it has one.
fn tested<L: Ledger>(
    context: &Context<'_>,
    check: &Check,
    known: &Option<Windows>,
    from: usize,
    steps: &mut Steps<L>,
) -> Result<Option<FaultKind>, NoMemory>
    requires inside { from ≤ length context.now.text.now }
    requires ready { IsReady context.now.vars.now check.now }
    requires known { AreOf (drop from context.now.text.now) known.now }
    ensures { IfOk result (λ kind. kind ≡ excluded_in context.now check.now from) }
{
    if is_told_absent(known, &check.pattern) {
        return Ok(None);
    }
    let answer = seek(context, &check.pattern, check.line, from, steps)?;
    Ok(excluded_by(answer))
}

/// Tests NOTs in the slice from an offset to the text's end, and adds their faults. A NOT binds nothing.
#[tactic(auto, unfolding(crate::specs::Region::region))]
pub fn test_region<L: Ledger>(
    context: &Context<'_>,
    nots: &[Check],
    from: usize,
    faults: &mut Items<Fault>,
    steps: &mut Steps<L>,
) -> Result<(), NoMemory>
    requires inside { from ≤ length context.now.text.now }
    requires ready { All (IsReady context.now.vars.now) nots.now }
    ensures { OnOk result (faults.new ≡ faults.old ++ region_in context.now from nots.now) }
{
    if nots.is_empty() {
        return Ok(());
    }
    test_each(context, nots, from, faults, steps)
}

/// The same of NOTs, each one.
#[tactic(auto, unfolding(crate::specs::Region::region))]
#[inline(never)]
fn test_each<L: Ledger>(
    context: &Context<'_>,
    nots: &[Check],
    from: usize,
    faults: &mut Items<Fault>,
    steps: &mut Steps<L>,
) -> Result<(), NoMemory>
    requires inside { from ≤ length context.now.text.now }
    requires ready { All (IsReady context.now.vars.now) nots.now }
    ensures { OnOk result (faults.new ≡ faults.old ++ region_in context.now from nots.now) }
{
    let known = windows_of(context.alloc, nots, context.text.split_at(from).1)?;
    for check in nots {
        if let Some(kind) = tested(context, check, &known, from, steps)? {
            faults.push(check.fault(kind))?;
        }
    }
    Ok(())
}
