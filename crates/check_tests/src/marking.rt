//! Marks of faults.
use crate::fields::are_bytes;
use check_group::{Fault, FaultKind};
use input_dump::marks;
use std::alloc::Global;
use tt_base::{Bytes, Items, NoMemory};

/// The mark of a fault of the second of two directives, as a row: an offset, a sign and a text; or `none`.
fn mark_of(alloc: Global, kind: FaultKind) -> Result<Bytes, NoMemory> {
    let mut labels = Items::new(alloc);
    labels.push(Bytes::from_slice(alloc, b"CHECK:1")?)?;
    labels.push(Bytes::from_slice(alloc, b"DIR-NOT:7")?)?;
    let mut faults = Items::new(alloc);
    faults.push(Fault { directive: 1, kind })?;
    let told = marks(alloc, faults.as_slice(), labels.as_slice())?;
    match told.as_slice().first() {
        Some(mark) => {
            let mut row = Bytes::from_slice(alloc, &[b'0' + (mark.at % 10) as u8, mark.sign])?;
            row.append(b" ")?;
            row.append(mark.text.as_slice())?;
            Ok(row)
        }
        None => Bytes::from_slice(alloc, b"none"),
    }
}

fn is_marked(alloc: Global, kind: FaultKind, due: &str) -> Result<bool, NoMemory> {
    are_bytes(mark_of(alloc, kind), due.as_bytes())
}

/// A match that is found at 4, behind one that ended at 2.
fn misplaced(alloc: Global, same: bool, due: &str) -> Result<bool, NoMemory> {
    let kind = if same {
        FaultKind::NotSameLine { found: 4, last: 2 }
    } else {
        FaultKind::WrongLine {
            found: 4,
            last: 2,
            newlines: 2,
        }
    };
    is_marked(alloc, kind, due)
}

#[test]
fn each_kind_of_fault_has_its_mark(rt: HostRuntime) -> Result<(), NoMemory> {
    let alloc = rt.alloc();
    assert!(rt;
        is_marked(
            alloc,
            FaultKind::NotFound { from: 3, done: 0 },
            "3X DIR-NOT:7: not found"
        )?
    );
    assert!(rt; misplaced(alloc, false, "4! DIR-NOT:7: wrong line")?);
    assert!(rt; misplaced(alloc, true, "4! DIR-NOT:7: wrong line")?);
    assert!(rt;
        is_marked(
            alloc,
            FaultKind::Excluded { found: 5 },
            "5! DIR-NOT:7: excluded"
        )?
    );
    assert!(rt;
        is_marked(
            alloc,
            FaultKind::Unreadable { found: 6 },
            "6! DIR-NOT:7: number out of range"
        )?
    );
    assert!(rt; is_marked(alloc, FaultKind::Range, "none")?);
    assert!(rt; is_marked(alloc, FaultKind::ZeroDivisor, "none")?);
    Ok(())
}
