//! The play of lines over planned replies: what is asked, and what is told.
use crate::crews::{asked, crew_of, test_at_w};
use crate::rows::{Tells, each_is_told, in_bytes, no_row};
use mini_shell::{Line, parse_line};
use shell_play::{LackNote, Told};
use std::alloc::{AllocError, Global};
use test_attempts::{AttemptStop, Finished, run_attempts};
use tt_base::{Bytes, Items, NoMemory};
use tt_outside::{Crew, Entry, Runner, Test};

/// The lines of a row, parted by `~`. One that is refused counts as want of memory.
fn lines_of(alloc: Global, field: &str) -> Result<Items<Line>, NoMemory> {
    let mut lines = Items::new(alloc);
    for line in field.split('~') {
        lines.push(parse_line(alloc, line.as_bytes()).or(Err(NoMemory))?)?;
    }
    Ok(lines)
}

fn show_note(out: &mut Bytes, note: &LackNote) -> Result<(), NoMemory> {
    match note {
        LackNote::NoProgram(word) => show_bytes(out, b"no program ", word.as_slice()),
        LackNote::NoFile(path) => show_bytes(out, b"no file ", path.as_slice()),
        LackNote::NoWrite(path) => show_bytes(out, b"no place ", path.as_slice()),
    }
}

/// Bytes behind a head, where there are any.
fn show_bytes(out: &mut Bytes, head: &[u8], bytes: &[u8]) -> Result<(), NoMemory> {
    if bytes.is_empty() {
        return Ok(());
    }
    out.append(head)?;
    out.append(bytes)?;
    out.append(b", ")
}

fn show_status(alloc: Global, out: &mut Bytes, status: Option<u32>) -> Result<(), NoMemory> {
    match format!(in alloc; "{status:?}; ") {
        Ok(text) => out.append(text.as_bytes()),
        Err(AllocError) => Err(NoMemory),
    }
}

/// What a command lacked and wrote, and its status.
fn show_told(alloc: Global, out: &mut Bytes, told: &Told) -> Result<(), NoMemory> {
    for note in told.notes.as_slice() {
        show_note(out, note)?;
    }
    show_bytes(out, b"out ", told.out.as_slice())?;
    show_bytes(out, b"err ", told.err.as_slice())?;
    show_status(alloc, out, told.status)
}

/// How many attempts and lines began.
fn counts(alloc: Global, attempts: u32, began: u32) -> Result<Bytes, NoMemory> {
    in_bytes(alloc, format!(in alloc; "({attempts}, {began}); "))
}

fn show_stop(alloc: Global, out: &mut Bytes, stop: AttemptStop) -> Result<(), NoMemory> {
    match format!(in alloc; "{stop:?}; ") {
        Ok(text) => out.append(text.as_bytes()),
        Err(AllocError) => Err(NoMemory),
    }
}

/// How many attempts and lines began, what the commands did, and how it ended.
fn told(alloc: Global, done: &Finished) -> Result<Bytes, NoMemory> {
    let mut out = counts(alloc, done.attempts, done.last.began())?;
    for told in done.last.told() {
        show_told(alloc, &mut out, told)?;
    }
    show_stop(alloc, &mut out, done.stop)?;
    Ok(out)
}

/// What is to be shown of a row.
#[derive(Clone, Copy)]
enum Part {
    Asked,
    Told,
}

/// Lines that may be played again so often, whose requests are answered by these words.
fn played<'a>(
    alloc: Global,
    lines: &'a [Line],
    test: &'a Test,
    words: &str,
    retries: u32,
    entries: &mut Items<Entry>,
) -> Result<Finished<'a>, NoMemory> {
    if lines.len() > 1000 || retries > 100 {
        return Err(NoMemory);
    }
    let mut crew = crew_of(alloc, None, words)?;
    let mut hand = crew.hire(alloc, 1)?;
    hand.begin(0);
    run_attempts(alloc, lines, test, retries, entries, 0, &mut hand)
}

/// What is shown of lines and replies, where lines may be played again so often.
#[derive(Drop)]
struct Plays {
    what: Part,
    retries: u32,
}

/// What was asked, or told, of lines that were played.
fn shown(
    alloc: Global,
    what: Part,
    done: &Result<Finished<'_>, NoMemory>,
    entries: &[Entry],
) -> Result<Bytes, NoMemory> {
    match done {
        Ok(done) => match what {
            Part::Asked => asked(alloc, entries),
            Part::Told => told(alloc, done),
        },
        Err(NoMemory) => Err(NoMemory),
    }
}

/// The same of lines that a test plays.
fn shown_of(
    alloc: Global,
    plays: &Plays,
    lines: &[Line],
    test: &Test,
    words: &str,
) -> Result<Bytes, NoMemory> {
    let mut entries = Items::new(alloc);
    let done = played(alloc, lines, test, words, plays.retries, &mut entries);
    shown(alloc, plays.what, &done, entries.as_slice())
}

/// The same of the test `/w/p.txt`.
fn shown_at_w(
    alloc: Global,
    plays: &Plays,
    lines: &[Line],
    words: &str,
) -> Result<Bytes, NoMemory> {
    let test = test_at_w(alloc)?;
    shown_of(alloc, plays, lines, &test, words)
}

impl Tells for Plays {
    fn told(&self, alloc: Global, given: &str) -> Result<Bytes, NoMemory> {
        let Some((lines, words)) = given.split_once(" => ") else {
            return no_row(alloc);
        };
        let lines = lines_of(alloc, lines)?;
        shown_at_w(alloc, self, lines.as_slice(), words)
    }
}

/// Lines, the replies to their requests, and these.
const ASKED: &str = "a && b => 1c0 2c0 => make /w/t; /w$ a; /w$ b
a && b => 1c1 => make /w/t; /w$ a
a || b => 1c0 => make /w/t; /w$ a
a || b => 1c1 2c0 => make /w/t; /w$ a; /w$ b
a ; b => 1c1 2c0 => make /w/t; /w$ a; /w$ b
! a && b => 1c0 => make /w/t; /w$ a
! a && b => 1c1 2c0 => make /w/t; /w$ a; /w$ b
a && b || c => 1c1 2c0 => make /w/t; /w$ a; /w$ c
a || b && c => 1c0 2c0 => make /w/t; /w$ a; /w$ c
a~b => 1c0 2c0 => make /w/t; /w$ a; /w$ b
a~b => 1c1 => make /w/t; /w$ a
a | b | c => 1c3x 2c0y 3c0 => make /w/t; /w$ a; /w$ b < x; /w$ c < y
a | b && c => 1c3x 2c0y => make /w/t; /w$ a; /w$ b < x
a 2>&1 | b => 1c0o!e 2c0 => make /w/t; /w$ a; /w$ b < oe
a >&2 | b => 1c0o!e 2c0 => make /w/t; /w$ a; /w$ b
a > f | b => 1c0o 3c0 => make /w/t; /w$ a; write /w/f o; /w$ b
a > f 2> g => 1c0o!e => make /w/t; /w$ a; write /w/f o; write /w/g e
a >> f 2>> g => 1c0o!e => make /w/t; /w$ a; append /w/f o; append /w/g e
a > f 2> f => 1c0o!e => make /w/t; /w$ a; write /w/f o; write /w/f e
a > f 2>&1 => 1c0o!e => make /w/t; /w$ a; write /w/f oe
a 2>&1 > f => 1c0o!e => make /w/t; /w$ a; write /w/f o
a 2> f >&2 => 1c0o!e => make /w/t; /w$ a; write /w/f oe
a &> f => 1c0o!e => make /w/t; /w$ a; write /w/f oe
a > /dev/null 2> /f => 1c0o!e => make /w/t; /w$ a; write /f e
a < f => 1fin 2c0 => make /w/t; read /w/f; /w$ a < in
a | b < f => 1c0x 2fin 3c0 => make /w/t; /w$ a; read /w/f; /w$ b < in
a | b < /dev/null => 1c0x 2c0 => make /w/t; /w$ a; /w$ b
a < f > g | b => 1m 3c0 => make /w/t; read /w/f; write /w/g ; /w$ b
cd s && a > o~b => 1c0x 3c0 => make /w/t; /w/s$ a; write /w/s/o x; /w$ b
cd s; cd ../r; a < i => 1fin 2c0 => make /w/t; read /w/s/../r/i; /w/s/../r$ a < in
cd /; a > f => 1c0 => make /w/t; /$ a; write /f 
! cd s || a => 1c0 => make /w/t; /w/s$ a
tool tool => 1c0 => make /w/t; /w$ /bin/tool tool
not tool; not --crash tool => 1c1 2c1 => make /w/t; /w$ not /bin/tool; /w$ not --crash /bin/tool
not not tool; not --crash --crash tool => 1c0 2c0 => make /w/t; /w$ not not /bin/tool; /w$ not --crash --crash tool
env tool; a | tool => 1c0 2c0x 3c0 => make /w/t; /w$ env tool; /w$ a; /w$ /bin/tool < x
a => 0b => make /w/t
a; b => 1e => make /w/t; /w$ a
a < f; b => 1t => make /w/t; read /w/f
a > f; b => 1c0 2b => make /w/t; /w$ a; write /w/f ";

#[test]
fn a_command_runs_where_the_statuses_before_it_let_it(rt: HostRuntime) -> Result<(), NoMemory> {
    let plays = Plays {
        what: Part::Asked,
        retries: 0,
    };
    each_is_told(&rt, rt.alloc(), ASKED, &plays)
}

/// Lines, the replies to their requests, and what is told: how many attempts and lines began, each command, and the end.
const TOLD: &str = "a => 0b => (1, 0); Ended(Unresolved); 
a~b => 1c0x 2c3!y => (1, 2); out x, Some(0); err y, Some(3); Ended(Failed { line: 1, status: 3 }); 
a~b => 1c2 => (1, 1); Some(2); Ended(Failed { line: 0, status: 2 }); 
a | b => 1c3x!e 2c0y => (1, 1); err e, Some(3); out y, Some(0); Ended(Failed { line: 0, status: 3 }); 
a | b | c => 1c3 2c4 3c0 => (1, 1); Some(3); Some(4); Some(0); Ended(Failed { line: 0, status: 4 }); 
a || b => 1c1 2c0 => (1, 1); Some(1); Some(0); Ended(Passed); 
! a => 1c0 => (1, 1); Some(0); Ended(Failed { line: 0, status: 1 }); 
cd s => 9m => (1, 1); Ended(Passed); 
! cd s => 9m => (1, 1); Ended(Failed { line: 0, status: 1 }); 
a 2>&1 => 1c0o!e => (1, 1); out oe, Some(0); Ended(Passed); 
a >&2 => 1c0o!e => (1, 1); err oe, Some(0); Ended(Passed); 
a 2>&1 > f => 1c0o!e => (1, 1); out e, Some(0); Ended(Passed); 
a &> f => 1c0o!e => (1, 1); Some(0); Ended(Passed); 
a > /dev/null => 1c0o!e => (1, 1); err e, Some(0); Ended(Passed); 
a => 1s => (1, 1); Some(139); Ended(Failed { line: 0, status: 139 }); 
a => 1m => (1, 1); no program a, Some(127); Ended(Failed { line: 0, status: 127 }); 
not tool => 1m => (1, 1); no program not, Some(127); Ended(Failed { line: 0, status: 127 }); 
tool => 1m => (1, 1); no program /bin/tool, Some(127); Ended(Failed { line: 0, status: 127 }); 
a < /f => 1m => (1, 1); no file /f, Some(1); Ended(Failed { line: 0, status: 1 }); 
a > /f => 1c0 2m => (1, 1); no place /f, Some(1); Ended(Failed { line: 0, status: 1 }); 
a > /f => 1c5 2m => (1, 1); no place /f, Some(5); Ended(Failed { line: 0, status: 5 }); 
a > /f 2> /g => 1m 2m 3m => (1, 1); no program a, no place /f, no place /g, Some(127); Ended(Failed { line: 0, status: 127 }); 
a < /f > /g => 1m 2m => (1, 1); no file /f, no place /g, Some(1); Ended(Failed { line: 0, status: 1 }); 
a => 1b => (1, 1); None; Ended(Unresolved); 
a | b => 1c0x!e 2e => (1, 1); err e, Some(0); None; Ended(Unresolved); 
a > /f 2> /g => 1c0 2m 3b => (1, 1); no place /f, None; Ended(Unresolved); ";

#[test]
fn each_command_is_told_with_what_it_lacked_and_wrote(rt: HostRuntime) -> Result<(), NoMemory> {
    let plays = Plays {
        what: Part::Told,
        retries: 0,
    };
    each_is_told(&rt, rt.alloc(), TOLD, &plays)
}

/// Lines that may be played again twice, the replies to their requests, and what is told.
const ATTEMPTS: &str = "p => 1c0 => (1, 1); Some(0); Ended(Passed); 
p => 1c1 3c0 => (2, 1); Some(0); Ended(Passed); 
p => 1c1 3c1 5c1 => (3, 1); Some(1); Ended(Failed { line: 0, status: 1 }); 
p => 1c1 2b => (2, 0); Ended(Unresolved); 
p => 1b => (1, 1); None; Ended(Unresolved); ";

#[test]
fn lines_that_fail_are_played_again(rt: HostRuntime) -> Result<(), NoMemory> {
    let plays = Plays {
        what: Part::Told,
        retries: 2,
    };
    each_is_told(&rt, rt.alloc(), ATTEMPTS, &plays)
}
