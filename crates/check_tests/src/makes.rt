//! Check files that are made from outputs. A row is a line with fields between `~`: an old check file, an output, a lead, and the check file
//! that is due, or `bad lead`, `line N` or `large`.
use crate::fields::{are_bytes, field_of, in_bytes};
use make_checks::{
    MadeFile, MakeFail, MakeFault, make_checks, make_file, put_file, refresh, refresh_file,
};
use std::alloc::Global;
use tt_base::{Bytes, NoMemory};
use tt_pieces::{Gathered, Pen};

/// What is written of a check file.
fn written(alloc: Global, file: &MadeFile) -> Result<Bytes, MakeFail> {
    let mut pen = Pen::new(alloc);
    let mut sink = Gathered::new(alloc);
    put_file(&mut pen, file, &mut sink);
    match pen.finish(&mut sink) {
        Ok(()) => Ok(sink.into_bytes()),
        Err(_) => Err(MakeFail::NoMemory),
    }
}

/// The same, if there is a file.
fn written_of(alloc: Global, made: Result<MadeFile, MakeFail>) -> Result<Bytes, MakeFail> {
    match made {
        Ok(file) => written(alloc, &file),
        Err(fail) => Err(fail),
    }
}

/// What stands for an answer in a row.
fn told_of(alloc: Global, made: Result<Bytes, MakeFail>) -> Result<Bytes, NoMemory> {
    match made {
        Ok(bytes) => Ok(bytes),
        Err(MakeFail::Bad(MakeFault::BadLead)) => Bytes::from_slice(alloc, b"bad lead"),
        Err(MakeFail::Bad(MakeFault::LineTooLong(number))) => {
            in_bytes(alloc, format!(in alloc; "line {number}"))
        }
        Err(MakeFail::Bad(MakeFault::TooLarge)) => Bytes::from_slice(alloc, b"large"),
        Err(MakeFail::NoMemory) => Err(NoMemory),
    }
}

/// Whether an answer is due.
fn is_told(alloc: Global, made: Result<Bytes, MakeFail>, due: &[u8]) -> Result<bool, NoMemory> {
    are_bytes(told_of(alloc, made), due)
}

/// Whether both calls make what is due: that which answers bytes, and that whose file is written.
fn are_made(
    alloc: Global,
    old: &[u8],
    output: Bytes,
    lead: &[u8],
    due: &[u8],
) -> Result<bool, NoMemory> {
    if old.len() > 1 << 20 || output.len() > 1 << 20 {
        return Ok(false);
    }
    let bytes = refresh(alloc, old, output.as_slice(), lead);
    if !is_told(alloc, bytes, due)? {
        return Ok(false);
    }
    let file = refresh_file(alloc, old, output, lead);
    is_told(alloc, written_of(alloc, file), due)
}

/// Whether what is made is due.
fn is_due(alloc: Global, row: &str) -> Result<bool, NoMemory> {
    let mut fields = row.split('~');
    let (Some(old), Some(output), Some(lead), Some(due)) = (
        fields.next(),
        fields.next(),
        fields.next(),
        fields.next(),
    ) else {
        return Ok(false);
    };
    let old = field_of(alloc, old)?;
    let output = field_of(alloc, output)?;
    let lead = field_of(alloc, lead)?;
    let due = field_of(alloc, due)?;
    are_made(
        alloc,
        old.as_slice(),
        output,
        lead.as_slice(),
        due.as_slice(),
    )
}

const MADE: &str =
    "~a [x]//b/~~CHECK-NOT: {{.|[[:space:]]}}/CHECK: {{^}}a {{\\[}}x]{{$}}/CHECK-EMPTY:/CHECK-NEXT: {{^}}b{{$}}/CHECK-NOT: {{.}}/
~~~CHECK-NOT: {{.}}/
~//%//~; ~; CHECK-NOT: {{.}}/
~  ~~CHECK-NOT: {{.|[[:space:]]}}/CHECK: {{^}} {{$}}/CHECK-NOT: {{.}}/
~k~; ~; CHECK-NOT: {{.|[[:space:]]}}/; CHECK: {{^}}k{{$}}/; CHECK-NOT: {{.}}/
~a  b%/~~CHECK-NOT: {{.|[[:space:]]}}/CHECK: {{^}}a b{{$}}/CHECK-NOT: {{.}}/
~a%~~CHECK-NOT: {{.|[[:space:]]}}/CHECK: {{^}}a%{{$}}/CHECK-NOT: {{.}}/
~/a~~CHECK-NOT: {{.|[[:space:]]}}/CHECK: {{^}}{{$}}/CHECK-NEXT: {{^}}a{{$}}/CHECK-NOT: {{.}}/
~{{[[~~CHECK-NOT: {{.|[[:space:]]}}/CHECK: {{^}}{{[{]}}{{[{]}}{{\\[}}{{\\[}}{{$}}/CHECK-NOT: {{.}}/
~a}}]]\\~~CHECK-NOT: {{.|[[:space:]]}}/CHECK: {{^}}a}}]]\\{{$}}/CHECK-NOT: {{.}}/
~k~a~bad lead
~k~Z ~bad lead
~k~9~bad lead
~k~-- ~bad lead
~k~_~bad lead
~k~;/~bad lead
~k~;%~bad lead
; RUN: p/; CHECK: z/~k~; ~; RUN: p/; CHECK-NOT: {{.|[[:space:]]}}/; CHECK: {{^}}k{{$}}/; CHECK-NOT: {{.}}/
//a%/CHECK-NEXT: b/c~~~//a%/c/CHECK-NOT: {{.}}/
COM: CHECK: x/CHECK-COUNT-0: a/CHECK-NOTE: b/MYCHECK: c/CHECK:/~~~COM: CHECK: x/CHECK-NOTE: b/MYCHECK: c/CHECK-NOT: {{.}}/
CHECK{  LITERAL   }: x/~~~CHECK-NOT: {{.}}/
/~~~/CHECK-NOT: {{.}}/
a%/CHECK: b%~~~a%/CHECK-NOT: {{.}}/
CHECK-NOTE%~~~CHECK-NOTE%/CHECK-NOT: {{.}}/";

#[test]
fn check_files_are_made_from_outputs(rt: HostRuntime) -> Result<(), NoMemory> {
    for row in MADE.lines() {
        assert!(rt; is_due(rt.alloc(), row)?, "{row}");
    }
    Ok(())
}

/// What is made of a line with so many of a byte, behind another line.
fn is_made_of(alloc: Global, count: usize, byte: u8, due: &str) -> Result<bool, NoMemory> {
    let mut output = Bytes::from_slice(alloc, b"a\n")?;
    for _ in 0..count {
        output.append(&[byte])?;
    }
    if output.len() > 1 << 20 {
        return Ok(false);
    }
    let bytes = told_of(alloc, make_checks(alloc, output.as_slice(), b""))?;
    let file = written_of(alloc, make_file(alloc, output, b""));
    if !is_told(alloc, file, bytes.as_slice())? {
        return Ok(false);
    }
    Ok(if due == "made" {
        bytes.len() > count
    } else {
        bytes.as_slice() == due.as_bytes()
    })
}

#[test]
fn the_first_line_too_long_is_told(rt: HostRuntime) -> Result<(), NoMemory> {
    let alloc = rt.alloc();
    assert!(rt; is_made_of(alloc, 65_526, b'a', "made")?);
    assert!(rt; is_made_of(alloc, 65_527, b'a', "line 2")?);
    assert!(rt; is_made_of(alloc, 10_921, b'[', "made")?);
    assert!(rt; is_made_of(alloc, 10_922, b'[', "line 2")?);
    Ok(())
}
