//! Reports that are read, and what changed between two. In a row `/` stands for a newline.

use crate::rows::are_bytes;
use json_report::{Line, ReportFail, ReportFault, changes, read_report};
use std::alloc::Global;
use test_outcome::Outcome;
use tt_base::{Bytes, Items, NoMemory};

/// A text, and what reading it comes to.
const READ: &str = r#"{"counts":{},"tests":[],"version":1} => 
{"counts":{},"tests":[],"version":1}/ => 
{"counts":{},"tests":[],"version":1}// => 
 { "version" : 1 , "tests" : [ ] , "counts" : { } } => 
{"counts":{"PASS":1},"tests":[{"name":"n","path":"p","result":"PASS"}],"version":1} => n p PASS;
{"counts":{"FAIL":1,"PASS":1},"tests":[{"result":"PASS","path":"b","name":"x"},{"name":"x","path":"a","result":"FAIL"}],"version":1} => x b PASS;x a FAIL;
{"counts":{"FLAKYPASS":1,"UNRESOLVED":1,"UNSUPPORTED":1,"XFAIL":1,"XPASS":1},"tests":[{"name":"","path":"1","result":"FLAKYPASS"},{"name":"","path":"2","result":"UNRESOLVED"},{"name":"","path":"3","result":"UNSUPPORTED"},{"name":"","path":"4","result":"XFAIL"},{"name":"","path":"5","result":"XPASS"}],"version":1} =>  1 FLAKYPASS; 2 UNRESOLVED; 3 UNSUPPORTED; 4 XFAIL; 5 XPASS;
{"counts":{"PASS":1},"tests":[{"name":"\"\\\u0041","path":"\u00e9\u20ac","result":"PASS"}],"version":1} => "\A é€ PASS;
 => NotJson
{ => NotJson
{"counts":{},"tests":[],"version":1}x => NotJson
{"counts":{},"tests":[],"version":01} => NotJson
[] => BadShape
1 => BadShape
{} => BadShape
{"counts":{},"tests":[]} => BadShape
{"counts":{},"tests":[],"version":1,"more":1} => BadShape
{"counts":[],"tests":[],"version":1} => BadShape
{"counts":{},"tests":{},"version":1} => BadShape
{"counts":{},"tests":[],"version":"1"} => BadShape
{"counts":{},"tests":[],"version":-1} => BadShape
{"counts":{},"tests":[],"version":1.0} => BadShape
{"counts":{},"tests":[],"version":1e0} => BadShape
{"counts":{},"tests":[],"version":18446744073709551616} => BadShape
{"count":{},"tests":[],"version":1} => BadShape
{"counts":{},"tests":[],"version":18446744073709551615} => BadVersion
{"counts":{},"tests":[],"version":2} => BadVersion
{"counts":{},"tests":[1],"version":0} => BadVersion
{"counts":{},"tests":[1],"version":1} => BadTest 0
{"counts":{},"tests":[{}],"version":1} => BadTest 0
{"counts":{},"tests":[{"name":"n","path":"p","result":"PASS"},{"name":"n","path":"p"}],"version":1} => BadTest 1
{"counts":{},"tests":[{"name":"n","path":"p","result":"PASS","more":1}],"version":1} => BadTest 0
{"counts":{},"tests":[{"name":"n","path":1,"result":"PASS"}],"version":1} => BadTest 0
{"counts":{},"tests":[{"name":"n","path":"p","result":"pass"}],"version":1} => BadTest 0
{"counts":{},"tests":[{"name":"n","path":"p","result":""}],"version":1} => BadTest 0
{"counts":{},"tests":[{"name":"n","path":"p","result":"PASS"},{"name":"m","path":"p","result":"FAIL"}],"version":1} => TwicePath 1
{"counts":{},"tests":[{"name":"n","path":"q","result":"PASS"},{"name":"n","path":"p","result":"PASS"},{"name":"n","path":"p","result":"PASS"},{"name":"n","path":"q","result":"PASS"}],"version":1} => TwicePath 2
{"counts":{},"tests":[{"name":"n","path":"p","result":"PASS"}],"version":1} => BadCounts
{"counts":{"PASS":2},"tests":[{"name":"n","path":"p","result":"PASS"}],"version":1} => BadCounts
{"counts":{"FAIL":0,"PASS":1},"tests":[{"name":"n","path":"p","result":"PASS"}],"version":1} => BadCounts
{"counts":{"PASS":1.0},"tests":[{"name":"n","path":"p","result":"PASS"}],"version":1} => BadCounts
{"counts":{"PASS":"1"},"tests":[{"name":"n","path":"p","result":"PASS"}],"version":1} => BadCounts
{"counts":{"PASS":1,"more":1},"tests":[{"name":"n","path":"p","result":"PASS"}],"version":1} => BadCounts"#;

/// Adds how a result is told in a row.
fn add_result(text: &mut Bytes, outcome: Option<Outcome>) -> Result<(), NoMemory> {
    match outcome {
        Some(outcome) => text.append(outcome.name()),
        None => text.append(b"absent"),
    }
}

/// The lines of a report, as a row has them.
fn lines_text(alloc: Global, lines: &[Line]) -> Result<Bytes, NoMemory> {
    let mut text = Bytes::new(alloc);
    for line in lines {
        text.append(line.name.as_slice())?;
        text.append(b" ")?;
        text.append(line.path.as_slice())?;
        text.append(b" ")?;
        add_result(&mut text, Some(line.result))?;
        text.append(b";")?;
    }
    Ok(text)
}

/// A fault, as a row has it.
fn fault_text(alloc: Global, fault: ReportFault) -> Result<Bytes, NoMemory> {
    let (name, place) = match fault {
        ReportFault::NotJson => ("NotJson", None),
        ReportFault::BadShape => ("BadShape", None),
        ReportFault::BadVersion => ("BadVersion", None),
        ReportFault::BadTest(place) => ("BadTest ", Some(place)),
        ReportFault::TwicePath(place) => ("TwicePath ", Some(place)),
        ReportFault::BadCounts => ("BadCounts", None),
    };
    let mut text = Bytes::from_slice(alloc, name.as_bytes())?;
    if let Some(place) = place {
        text.append(&[b'0' + (place % 10) as u8])?;
    }
    Ok(text)
}

/// What was read, as a row has it.
fn told_of(alloc: Global, read: &Result<Items<Line>, ReportFail>) -> Result<Bytes, NoMemory> {
    match read {
        Ok(lines) => lines_text(alloc, lines.as_slice()),
        Err(ReportFail::Bad(fault)) => fault_text(alloc, *fault),
        Err(ReportFail::NoMemory) => Err(NoMemory),
    }
}

/// What reading bytes comes to, as a row has it.
fn read_told(alloc: Global, bytes: &[u8]) -> Result<Bytes, NoMemory> {
    let read = read_report(alloc, bytes);
    told_of(alloc, &read)
}

/// What reading a text comes to, as a row has it.
fn read_text(alloc: Global, text: &str) -> Result<Bytes, NoMemory> {
    match text.replace(alloc, "/", "\n") {
        Ok(text) => read_told(alloc, text.as_bytes()),
        Err(_) => Err(NoMemory),
    }
}

fn is_read(alloc: Global, row: &str) -> Result<bool, NoMemory> {
    match row.split_once(" => ") {
        Some((text, due)) => are_bytes(read_text(alloc, text), due.as_bytes()),
        None => Ok(false),
    }
}

#[test]
fn a_report_is_read_or_its_first_fault_is_told(rt: HostRuntime) -> Result<(), NoMemory> {
    for row in READ.lines() {
        assert!(rt; is_read(rt.alloc(), row)?, "{row}");
    }
    Ok(())
}

/// An old and a new report, as the results of paths, and what changed.
const CHANGED: &str = "; => ; => 
a PASS; => a PASS; => 
a PASS;b FAIL; => b FAIL;a PASS; => 
/w/a PASS;/w/b FAIL;/w/c XFAIL;/w/d UNSUPPORTED;/w/e UNRESOLVED; => /w/a PASS;/w/b PASS;/w/c XPASS;/w/d UNSUPPORTED; => /w/b FAIL PASS;/w/c XFAIL XPASS;/w/e UNRESOLVED absent;
; => b PASS;a FAIL; => a absent FAIL;b absent PASS;
b PASS;a FAIL; => ; => a FAIL absent;b PASS absent;
a PASS; => aa PASS;B PASS; => B absent PASS;a PASS absent;aa absent PASS;
a PASS; => a FLAKYPASS; => a PASS FLAKYPASS;
a FAIL;b UNRESOLVED; => a UNRESOLVED;b UNRESOLVED; => a FAIL UNRESOLVED;";

fn outcome_of(name: &str) -> Outcome {
    for outcome in &[
        Outcome::Flakypass,
        Outcome::Fail,
        Outcome::Xfail,
        Outcome::Xpass,
        Outcome::Unsupported,
        Outcome::Unresolved,
    ] {
        if outcome.name() == name.as_bytes() {
            return *outcome;
        }
    }
    Outcome::Pass
}

/// The tests of a row.
fn lines_of(alloc: Global, text: &str) -> Result<Items<Line>, NoMemory> {
    let mut lines = Items::new(alloc);
    for part in text.split(';') {
        if let Some((path, result)) = part.split_once(' ') {
            lines.push(Line {
                name: Bytes::new(alloc),
                path: Bytes::from_slice(alloc, path.as_bytes())?,
                result: outcome_of(result),
            })?;
        }
    }
    Ok(lines)
}

/// What changed, as a row has it.
fn changed_text(alloc: Global, old: &[Line], new: &[Line]) -> Result<Bytes, NoMemory> {
    let mut text = Bytes::new(alloc);
    for change in changes(alloc, old, new)?.as_slice() {
        text.append(change.path.as_slice())?;
        text.append(b" ")?;
        add_result(&mut text, change.old)?;
        text.append(b" ")?;
        add_result(&mut text, change.new)?;
        text.append(b";")?;
    }
    Ok(text)
}

fn is_change(alloc: Global, row: &str) -> Result<bool, NoMemory> {
    let Some((old, rest)) = row.split_once(" => ") else {
        return Ok(false);
    };
    let Some((new, due)) = rest.split_once(" => ") else {
        return Ok(false);
    };
    let old = lines_of(alloc, old)?;
    let new = lines_of(alloc, new)?;
    let told = changed_text(alloc, old.as_slice(), new.as_slice());
    are_bytes(told, due.as_bytes())
}

#[test]
fn changes_are_the_paths_whose_results_differ_in_byte_order(
    rt: HostRuntime,
) -> Result<(), NoMemory> {
    for row in CHANGED.lines() {
        assert!(rt; is_change(rt.alloc(), row)?, "{row}");
    }
    Ok(())
}

fn is_no_json(alloc: Global, bytes: &[u8]) -> bool {
    matches!(
        read_report(alloc, bytes).err(),
        Some(ReportFail::Bad(ReportFault::NotJson))
    )
}

#[test]
fn bytes_that_are_no_text_are_no_json(rt: HostRuntime) {
    assert!(rt; is_no_json(rt.alloc(), b"\"\xff\""));
    assert!(rt; is_no_json(rt.alloc(), b"\"\xc3\""));
}
