//! Runs whose input and whose messages move a byte at a time.
use crate::fields::are_bytes;
use crate::objects::{NEVER, NOT_FOUND, files_of, told_of};
use std::alloc::Global;
use tt_base::NoMemory;
use tt_outside::{MemSink, MemSource};

/// A label, a register that is captured and used again, and a call that is excluded.
const REALISTIC: &str = "; RUN: llc < %s | FileCheck %s
; CHECK-LABEL: main:
; CHECK: mov [[R:r[0-9]+]], #1
; CHECK-NEXT: add [[R]], [[R]], #[[#N:]]
; CHECK-NOT: call
; CHECK: ret
";

/// Whether this is told where each read and each write moves one byte.
fn tells(alloc: Global, checks: &str, input: &str, due: &str) -> Result<bool, NoMemory> {
    let mut files = files_of(alloc, checks, NEVER)?;
    let mut input = MemSource::in_pieces(alloc, input.as_bytes(), 1)?;
    let mut out = MemSink::in_pieces(alloc, 1, 100)?;
    let mut err = MemSink::in_pieces(alloc, 1, 1000)?;
    let told = told_of(alloc, "t.txt", &mut files, &mut input, &mut out, &mut err);
    are_bytes(told, due.as_bytes())
}

const FOUND: &str = "main:\n\tmov r4, #1\n\tadd r4, r4, #22\n\tret\n";

const EXCLUDED: &str = "main:\n\tmov r4, #1\n\tadd r4, r4, #22\n\tcall f\n\tret\n";

const CALL: &str = "1 t.txt:5:14: error: CHECK-NOT: excluded string found in input
; CHECK-NOT: call
             ^
<stdin>:4:2: note: found here
 call f
 ^
";

#[test]
fn a_byte_at_a_time_tells_the_same(rt: HostRuntime) -> Result<(), NoMemory> {
    for (checks, input, due) in [
        ("CHECK: foo", "foo\n", "0 "),
        ("CHECK: foo\n", "bar\n", NOT_FOUND),
        (REALISTIC, FOUND, "0 "),
        (REALISTIC, EXCLUDED, CALL),
    ] {
        assert!(rt; tells(rt.alloc(), checks, input, due)?, "{input}: {due}");
    }
    Ok(())
}
