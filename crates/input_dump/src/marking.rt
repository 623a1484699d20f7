//! Marks: what stands below a line of a dump.
ghost use Rattle.std.specs.Prelude.{◌≡◌, ◌<◌, ◌++◌, All, IfOk, OnOk, length};
ghost use Rattle.std.specs.List.{flat_map};
ghost use Rattle.input_dump.specs.Marks.{mark_of, marks, one_or_none, spoken};

use check_group::{Fault, FaultKind};
use std::alloc::Global;
use tt_base::{Bytes, Items, NoMemory};

/// A sign below an offset of a text, with what is told of it.
#[derive(Drop, Debug)]
pub struct Mark {
    pub at: usize,
    pub sign: u8,
    pub text: Bytes,
}

/// The marks of faults, in order. Each directive has a label by its number, as `CHECK:1`.
pub fn marks(alloc: Global, faults: &[Fault], labels: &[Bytes]) -> Result<Items<Mark>, NoMemory>
    requires labelled { All (λ fault. fault.directive < length labels.now) faults.now }
    ensures { IfOk result (λ told. told ≡ marks faults.now labels.now) }
{
    let mut told = Items::new(alloc);
    for fault in faults {
        let label = &labels[fault.directive];
        append_mark_of(alloc, &mut told, &fault.kind, label.as_slice())?;
    }
    Ok(told)
}

/// Adds the mark of a fault, if it has a place.
fn append_mark_of(
    alloc: Global,
    told: &mut Items<Mark>,
    kind: &FaultKind,
    label: &[u8],
) -> Result<(), NoMemory>
    ensures { OnOk result (told.new ≡ told.old ++ one_or_none (mark_of kind.now label.now)) }
{
    match mark_of(alloc, kind, label)? {
        Some(mark) => told.push(mark),
        None => Ok(()),
    }
}

/// The mark of a fault, if it has a place.
fn mark_of(alloc: Global, kind: &FaultKind, label: &[u8]) -> Result<Option<Mark>, NoMemory>
    ensures { IfOk result (λ mark. mark ≡ mark_of kind.now label.now) }
{
    let (at, sign, what): (usize, u8, &[u8]) = match kind {
        FaultKind::NotFound { from, .. } => (*from, b'X', b": not found"),
        FaultKind::WrongLine { found, .. } => (*found, b'!', b": wrong line"),
        FaultKind::NotSameLine { found, .. } => (*found, b'!', b": wrong line"),
        FaultKind::Excluded { found } => (*found, b'!', b": excluded"),
        FaultKind::Unreadable { found } => (*found, b'!', b": number out of range"),
        FaultKind::Undefined(_) | FaultKind::Range | FaultKind::ZeroDivisor => return Ok(None),
    };
    let mut text = Bytes::from_slice(alloc, label)?;
    text.append(what)?;
    Ok(Some(Mark { at, sign, text }))
}
