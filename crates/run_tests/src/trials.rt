//! Tests that are run over planned replies: result, number of entries, and transcript.
use crate::crews::{crew_of, test_at_w};
use crate::rows::{are_bytes, bytes_of, three};
use lit_test::{Trial, run_test};
use std::alloc::{AllocError, Global};
use std::process::Abort;
use tt_base::{Bytes, NoMemory};
use tt_outside::{Crew, Test};

/// The file of a row; `-` stands for none.
fn file_of(field: &str) -> Option<&str> {
    if field == "-" { None } else { Some(field) }
}

/// The trial of a test, whose requests are answered by these words.
fn trial_of(
    alloc: Global,
    test: &Test,
    file: Option<&str>,
    words: &str,
) -> Result<Trial, NoMemory> {
    let mut crew = crew_of(alloc, file, words)?;
    let mut hand = crew.hire(alloc, 1)?;
    run_test(alloc, 0, test, &mut hand)
}

/// A trial's result, the number of its entries, and its transcript.
fn shown(alloc: Global, trial: &Trial) -> Result<Bytes, NoMemory> {
    let mut out = Bytes::from_slice(alloc, trial.result.name())?;
    out.append(b" ")?;
    out.append(&[b'0' + (trial.entries.len() % 10) as u8])?;
    out.append(b" ")?;
    trial.text.add_to(&mut out)?;
    Ok(out)
}

/// What is told of a test, whose requests are answered by these words.
fn told_of(alloc: Global, test: &Test, file: Option<&str>, words: &str) -> Result<Bytes, NoMemory> {
    let trial = trial_of(alloc, test, file, words)?;
    shown(alloc, &trial)
}

fn told(alloc: Global, file: &str, words: &str) -> Result<Bytes, NoMemory> {
    let test = test_at_w(alloc)?;
    told_of(alloc, &test, file_of(file), words)
}

/// Whether this is told of a row's file and replies.
fn is_told(alloc: Global, row: &str) -> Result<bool, NoMemory> {
    let Some((file, words, due)) = three(row) else {
        return Ok(false);
    };
    let due = bytes_of(alloc, due)?;
    are_bytes(told(alloc, file, words), due.as_slice())
}

/// Sees that this is told of each row's file and replies.
fn each_is_told(rt: &impl Abort, alloc: Global, rows: &str) -> Result<(), NoMemory> {
    for row in rows.lines() {
        assert!(rt; is_told(alloc, row)?, "{row}");
    }
    Ok(())
}

/// The test's file, the replies, and its result, the number of entries and the transcript.
const RESULTS: &str = "RUN: true => 2c0 => PASS 3 RUN: line 1: true~
RUN: false => 2c1 => FAIL 3 RUN: line 1: false~# status: 1~
RUN: false~XFAIL: * => 2c1 => XFAIL 3 RUN: line 1: false~# status: 1~
RUN: true~XFAIL: linux => 2c0 => XPASS 3 RUN: line 1: true~
RUN: true~XFAIL: gpu => 2c0 => PASS 3 RUN: line 1: true~
RUN: true~REQUIRES: gpu =>  => UNSUPPORTED 1 # not supported~
RUN: true~REQUIRES: linux, gpu =>  => UNSUPPORTED 1 # not supported~
RUN: true~REQUIRES: linux => 2c0 => PASS 3 RUN: line 1: true~
RUN: true~UNSUPPORTED: gpu, linux =>  => UNSUPPORTED 1 # not supported~
RUN: 'a~UNSUPPORTED: linux =>  => UNSUPPORTED 1 # not supported~
RUN: p~ALLOW_RETRIES: 2 => 2c1 4c0 => FLAKYPASS 5 # attempts: 2~RUN: line 1: p~
RUN: p~ALLOW_RETRIES: 2~XFAIL: * => 2c1 4c0 => FLAKYPASS 5 # attempts: 2~RUN: line 1: p~
RUN: p~ALLOW_RETRIES: 2 => 2c1 4c1 6c1 => FAIL 7 # attempts: 3~RUN: line 1: p~# status: 1~
RUN: p~ALLOW_RETRIES: 1~XFAIL: * => 2c1 4c1 => XFAIL 5 # attempts: 2~RUN: line 1: p~# status: 1~
hello =>  => UNRESOLVED 1 # unresolved: NoRun~
- => 0m => UNRESOLVED 1 # unresolved: MissingTest~
- => 0t => UNRESOLVED 1 # unresolved: TooLarge~
- => 0b => UNRESOLVED 1 # unresolved: Broken~
RUN: a \\ =>  => UNRESOLVED 1 # unresolved: Unfinished~
RUN: ^ =>  => UNRESOLVED 1 # unresolved: NotText~
RUN: a~REQUIRES: ( =>  => UNRESOLVED 1 # unresolved: BadExpr~
RUN: a~ALLOW_RETRIES: x =>  => UNRESOLVED 1 # unresolved: BadRetries~
RUN: a~ALLOW_RETRIES: 1~ALLOW_RETRIES: 1 =>  => UNRESOLVED 1 # unresolved: TwiceRetries~
RUN: a 'b =>  => UNRESOLVED 1 # unresolved: NoQuoteEnd~
RUN: a & b =>  => UNRESOLVED 1 # unresolved: BadOperator~
RUN: a * =>  => UNRESOLVED 1 # unresolved: Glob~
RUN: && a =>  => UNRESOLVED 1 # unresolved: NoCommand~
RUN: a > =>  => UNRESOLVED 1 # unresolved: NoTarget~
RUN: a > f > g =>  => UNRESOLVED 1 # unresolved: TwiceRedirected~
RUN: cd a b =>  => UNRESOLVED 1 # unresolved: BadCd~
RUN: true~RUN: export A=1 =>  => UNRESOLVED 1 # unresolved: LeftOut~
RUN: p~XFAIL: * => 1b => UNRESOLVED 2 # unresolved: Broken~
RUN: p~XFAIL: * => 2b => UNRESOLVED 3 RUN: line 1: p~# unresolved: Broken~
RUN: p~ALLOW_RETRIES: 1 => 2c1 3b => UNRESOLVED 4 # attempts: 2~# unresolved: Broken~
RUN: p~ALLOW_RETRIES: 1 => 2e => UNRESOLVED 3 RUN: line 1: p~# unresolved: TooLarge~";

#[test]
fn each_result_is_told_with_its_cause(rt: HostRuntime) -> Result<(), NoMemory> {
    each_is_told(&rt, rt.alloc(), RESULTS)
}

/// The same, of what RUN lines lack and write.
const TRANSCRIPTS: &str =
    "RUN: p1 | p2 && p3 => 2c3x 3c0y => FAIL 4 RUN: line 1: p1 | p2 && p3~# status: 3~# output:~y~
RUN: nosuch => 2m => FAIL 3 RUN: line 1: nosuch~# no such program: nosuch~# status: 127~
RUN: p => 2s => FAIL 3 RUN: line 1: p~# status: 139~
RUN: p => 2e => UNRESOLVED 3 RUN: line 1: p~# unresolved: TooLarge~
RUN: p => 2b => UNRESOLVED 3 RUN: line 1: p~# unresolved: Broken~
RUN: p > /no/f => 2c0 3m => FAIL 4 RUN: line 1: p > /no/f~# cannot write: /no/f~# status: 1~
RUN: p < /no/f => 2m => FAIL 3 RUN: line 1: p < /no/f~# no such file: /no/f~# status: 1~
RUN: p < f > g => 2m 3m => FAIL 4 RUN: line 1: p < f > g~# no such file: /w/f~# cannot write: /w/g~# status: 1~
RUN: cd sub && p > o => 2c0x => PASS 4 RUN: line 1: cd sub && p > o~
RUN: p > f; q => 2c0x 3b => UNRESOLVED 4 RUN: line 1: p > f; q~# unresolved: Broken~
RUN: p; q => 2c0x!y 3b => UNRESOLVED 4 RUN: line 1: p; q~# output:~x~# errors:~y~# unresolved: Broken~
RUN: p => 2c2x!y => FAIL 3 RUN: line 1: p~# output:~x~# errors:~y~# status: 2~
RUN: p => 2c0x~!y~ => PASS 3 RUN: line 1: p~# output:~x~# errors:~y~
RUN: p 2>&1 => 2c0x!y => PASS 3 RUN: line 1: p 2>&1~# output:~xy~
x~RUN: a~RUN: b~RUN: c => 2c0o 3c2 => FAIL 4 RUN: line 2: a~# output:~o~RUN: line 3: b~# status: 2~
RUN: p %s %S %p %t %T %% => 2c0 => PASS 3 RUN: line 1: p /w/p.txt /s /s /w/t/p.tmp /w/t %~
x~RUN: p %(line) %(line-1) => 2c0 => PASS 3 RUN: line 2: p 2 1~";

#[test]
fn lines_that_began_are_told_with_their_commands(rt: HostRuntime) -> Result<(), NoMemory> {
    each_is_told(&rt, rt.alloc(), TRANSCRIPTS)
}

/// A row in which each `*` is 2,000 bytes.
fn grown(alloc: Global, row: &str) -> Result<String, AllocError> {
    let mut grown = String::new(alloc);
    for (at, part) in row.split('*').enumerate() {
        if at > 0 {
            for _ in 0..2000 {
                grown.push('x')?;
            }
        }
        grown.push_str(part)?;
    }
    Ok(grown)
}

/// Whether this is told of a row in which each `*` is many bytes.
fn is_told_grown(alloc: Global, row: &str) -> Result<bool, NoMemory> {
    match grown(alloc, row) {
        Ok(row) => is_told(alloc, row.as_str()),
        Err(AllocError) => Err(NoMemory),
    }
}

/// The same rows, in which `*` stands for many bytes.
const LONG: &str = "RUN: p => 2c0* => PASS 3 RUN: line 1: p~# output:~*~
RUN: p => 2c1*~!y*~ => FAIL 3 RUN: line 1: p~# output:~*~# errors:~y*~# status: 1~
RUN: p 2>&1 => 2c0*!y* => PASS 3 RUN: line 1: p 2>&1~# output:~*y*~
RUN: p 1>&2 => 2c0*!y* => PASS 3 RUN: line 1: p 1>&2~# errors:~*y*~
RUN: p | q => 2c0* 3c0*z => PASS 4 RUN: line 1: p | q~# output:~*z~
RUN: p > f 2>&1; q => 2c0*!* 4c0* => PASS 5 RUN: line 1: p > f 2>&1; q~# output:~*~
RUN: p~RUN: q => 2c0* 3c3 => FAIL 4 RUN: line 1: p~# output:~*~RUN: line 2: q~# status: 3~";

#[test]
fn long_streams_are_told_whole(rt: HostRuntime) -> Result<(), NoMemory> {
    let alloc = rt.alloc();
    for row in LONG.lines() {
        assert!(rt; is_told_grown(alloc, row)?, "{row}");
    }
    Ok(())
}

/// A path of as many bytes as a test may keep.
fn long_path(alloc: Global) -> Result<Bytes, NoMemory> {
    let path = vec![in alloc; b'a'; 1 << 24].or(Err(NoMemory))?;
    Bytes::from_slice(alloc, path.as_slice())
}

/// A test of such a path.
fn test_with_long_path(alloc: Global) -> Result<Test, NoMemory> {
    let path = long_path(alloc)?;
    let mut test = test_at_w(alloc)?;
    test.path = path;
    Ok(test)
}

fn told_of_long_path(alloc: Global) -> Result<Bytes, NoMemory> {
    let test = test_with_long_path(alloc)?;
    told_of(alloc, &test, None, "")
}

#[test]
fn a_file_is_not_asked_for_that_has_no_room(rt: HostRuntime) -> Result<(), NoMemory> {
    let due = b"UNRESOLVED 0 # unresolved: TooMuch\n".as_slice();
    assert!(rt; are_bytes(told_of_long_path(rt.alloc()), due)?);
    Ok(())
}
