//! Cases of `read_script` with ample memory.
ghost use Rattle.std.specs.Prelude.{IfOk};
ghost use Rattle.lit_directives.specs.Lists.{HasNoRefs};

use crate::features::{features_of, held};
use crate::rows::{Tells, append, bytes_of, each_is_told, in_bytes, no_row, three};
use bool_exprs::BoolExpr;
use lit_directives::{Script, ScriptFail, ScriptFault, read_script};
use std::alloc::Global;
use tt_base::{Bytes, Items, NoMemory};

/// The script of a text of at most 2^30 bytes; of a longer one there is none.
fn read_short(alloc: Global, text: &[u8]) -> Result<Script, ScriptFail>
    ensures { IfOk result HasNoRefs }
{
    if text.len() > 1 << 30 {
        return Err(ScriptFail::NoMemory);
    }
    read_script(alloc, text)
}

/// The RUN lines of a script, each with its number and a `|` behind it.
fn runs_of(alloc: Global, script: &Script) -> Result<Bytes, NoMemory> {
    let mut shown = Bytes::new(alloc);
    for run in script.runs.as_slice() {
        shown.append(&[b'0' + (run.line % 10) as u8])?;
        shown.append(run.text.as_slice())?;
        shown.append(b"|")?;
    }
    Ok(shown)
}

/// The RUN lines that were read, or that there is no script.
fn runs_read(alloc: Global, read: &Result<Script, ScriptFail>) -> Result<Bytes, NoMemory> {
    match read {
        Ok(script) => runs_of(alloc, script),
        Err(_) => Bytes::from_slice(alloc, b"no script"),
    }
}

/// The RUN lines of a text, or that it is no script.
fn runs_told(alloc: Global, text: &[u8]) -> Result<Bytes, NoMemory> {
    let read = read_short(alloc, text);
    runs_read(alloc, &read)
}

/// The RUN lines of a text.
struct Runs;

impl Tells for Runs {
    fn told(&self, alloc: Global, given: &str) -> Result<Bytes, NoMemory> {
        let text = bytes_of(alloc, given)?;
        runs_told(alloc, text.as_slice())
    }
}

/// Texts, and their RUN lines.
const RUNS: &str = "RUN: a \\~RUN: b => 1a  b|
RUN: a => 1a|
x~// RUN:  a \t\r~RUN:~RUN: c => 2a|3|4c|
RUN: a\\~; RUN:\\~# RUN:  b  => 1a  b|
RUN: a\\~x~REQUIRES: y~RUN: b~RUN: c => 1a b|5c|
RUN: a~END.~RUN: b => 1a|
RUN: a~# END. \t\r~RUN: b => 1a|
RUN: a~END. x RUN: c~RUN: b => 1a|3b|
XRUN: x~-RUN: y~RUN: a RUN: b => 3a RUN: b|
xEND.~RUNRUN: x~RUN: a => 3a|
1RUN: x~_RUN: x~.RUN: a\r\r~ => 3a\r|
RUN: a~REQUIRES: RUN: b => no script";

#[test]
fn run_lines_are_joined_and_numbered(rt: HostRuntime) -> Result<(), NoMemory> {
    each_is_told(&rt, rt.alloc(), RUNS, &Runs)
}

/// The fault that a text was refused for, or that there is none.
fn fault_of(alloc: Global, read: &Result<Script, ScriptFail>) -> Result<Bytes, NoMemory> {
    match read {
        Err(ScriptFail::Bad(fault)) => in_bytes(alloc, format!(in alloc; "{fault:?}")),
        Err(ScriptFail::NoMemory) => Err(NoMemory),
        Ok(_) => Bytes::from_slice(alloc, b"none"),
    }
}

/// The fault of a text, or that there is none.
fn refused(alloc: Global, text: &[u8]) -> Result<Bytes, NoMemory> {
    let read = read_short(alloc, text);
    fault_of(alloc, &read)
}

/// The fault of a text.
struct Faults;

impl Tells for Faults {
    fn told(&self, alloc: Global, given: &str) -> Result<Bytes, NoMemory> {
        let text = bytes_of(alloc, given)?;
        refused(alloc, text.as_slice())
    }
}

/// Texts, and their first faults with the number of the line.
const FAULTS: &str = r"RUN: a \ => Unfinished(1)
x => NoRun
 => NoRun
^~END.^~ => NoRun
END.~RUN: a => NoRun
^END.~RUN: a => NoRun
RUN: a~RUN: b\~END.~RUN: c => Unfinished(2)
RUN: a\~x~RUN: b\~ => Unfinished(3)
RUN: a~REQUIRES: a && => BadExpr(2)
UNSUPPORTED: *~RUN: a => BadExpr(1)
RUN: ^~REQUIRES: ) => NotText(1)
^^XFAIL: (~ => NotText(1)
ALLOW_RETRIES: 101~ => BadRetries(1)
ALLOW_RETRIES: ~RUN: a => BadRetries(1)
ALLOW_RETRIES: +1~RUN: a => BadRetries(1)
ALLOW_RETRIES: 1 2~RUN: a => BadRetries(1)
ALLOW_RETRIES: 99999999999999999999 => BadRetries(1)
ALLOW_RETRIES: 1~ALLOW_RETRIES: x => TwiceRetries(2)
RUN: a \~REQUIRES: ( => BadExpr(2)";

#[test]
fn the_first_fault_is_told_with_its_line(rt: HostRuntime) -> Result<(), NoMemory> {
    each_is_told(&rt, rt.alloc(), FAULTS, &Faults)
}

/// Which expressions of a list hold, as a text of `1` and `0` with a `|` behind it.
fn show_list(
    shown: &mut Bytes,
    list: &Items<BoolExpr>,
    features: &[Bytes],
) -> Result<(), NoMemory> {
    for expr in list.as_slice() {
        shown.append(&[held(expr, features)])?;
    }
    shown.append(b"|")
}

/// What the three lists of a script show, and its retries.
fn script_told(alloc: Global, script: &Script, features: &[Bytes]) -> Result<Bytes, NoMemory> {
    let mut shown = Bytes::new(alloc);
    show_list(&mut shown, &script.required, features)?;
    show_list(&mut shown, &script.unsupported, features)?;
    show_list(&mut shown, &script.xfail, features)?;
    shown.append(&[b'0' + (script.retries % 10) as u8])?;
    Ok(shown)
}

/// The same of what was read.
fn lists_read(
    alloc: Global,
    read: &Result<Script, ScriptFail>,
    features: &[Bytes],
) -> Result<Bytes, NoMemory> {
    match read {
        Ok(script) => script_told(alloc, script, features),
        Err(_) => Bytes::from_slice(alloc, b"no script"),
    }
}

/// What the three lists of a text show, and its retries.
fn lists_of(alloc: Global, text: &[u8], features: &[Bytes]) -> Result<Bytes, NoMemory> {
    let read = read_short(alloc, text);
    lists_read(alloc, &read, features)
}

/// The same where two features are there.
fn lists_of_two(alloc: Global, text: &[u8]) -> Result<Bytes, NoMemory> {
    let features = features_of(alloc, "linux y,z")?;
    lists_of(alloc, text, features.as_slice())
}

/// What the lists of a text show.
struct Lists;

impl Tells for Lists {
    fn told(&self, alloc: Global, given: &str) -> Result<Bytes, NoMemory> {
        let text = bytes_of(alloc, given)?;
        lists_of_two(alloc, text.as_slice())
    }
}

/// Texts, and what their lists show.
const LISTS: &str = "RUN: a => |||0
RUN: a~REQUIRES: x, linux~REQUIRES: !x,,{{y,z}}  => 0111|||0
XFAIL: *, r\r~UNSUPPORTED: q~RUN: a~XFAIL: linux => |0|101|0
RUN: a~~ALLOW_RETRIES: \t007 \r~REQUIRES: => |||7
RUN: a~END.~ALLOW_RETRIES: 1~XFAIL: * => |||0
RUN: a~REQUIRES: linux &&~REQUIRES: linux => no script";

#[test]
fn lists_of_several_lines_add_up(rt: HostRuntime) -> Result<(), NoMemory> {
    each_is_told(&rt, rt.alloc(), LISTS, &Lists)
}

/// So many times a part between two others.
fn repeated(
    alloc: Global,
    front: &str,
    part: &str,
    times: usize,
    last: &str,
) -> Result<Bytes, NoMemory> {
    let mut text = Bytes::new(alloc);
    append(&mut text, front)?;
    for _ in 0..times {
        append(&mut text, part)?;
    }
    append(&mut text, last)?;
    Ok(text)
}

/// A front, a part, how often it is repeated, and a last one.
fn spelled(given: &str) -> Option<(&str, &str, usize, &str)> {
    let (front, part, rest) = three(given)?;
    let (times, last) = rest.split_once(" => ")?;
    Some((front, part, times.parse::<usize>().ok()?, last))
}

/// The fault of the text that a row spells.
struct Hostile;

impl Tells for Hostile {
    fn told(&self, alloc: Global, given: &str) -> Result<Bytes, NoMemory> {
        let Some((front, part, times, last)) = spelled(given) else {
            return no_row(alloc);
        };
        let text = repeated(alloc, front, part, times, last)?;
        refused(alloc, text.as_slice())
    }
}

/// A front, a part, how often it is repeated, a last one, and the fault.
const HOSTILE: &str = r" => RUN: a~ => 1000 => END. => none
 => RUN: a~ => 1001 =>  => TooMany(1001)
~ => RUN: a\~ => 1000 => RUN: b => TooMany(1002)
 => RUN: a\~ => 999 => RUN: b => none
RUN: a =>   => 65536 =>  => none
END. =>   => 65536 => ~RUN: a => NoRun
REQUIRES:  => ( => 65536 => ~ => BadExpr(1)
XFAIL:  => {{ => 65536 => ~ => BadExpr(1)
RUN: a~ => RUN => 65536 =>  => none
 => ~ => 65536 => REQUIRES: ( => BadExpr(65537)
ALLOW_RETRIES:  => 9 => 65536 => ~ => BadRetries(1)";

#[test]
fn hostile_scripts_are_read_or_refused(rt: HostRuntime) -> Result<(), NoMemory> {
    each_is_told(&rt, rt.alloc(), HOSTILE, &Hostile)
}

/// Whether a text was refused for want of a RUN line.
fn is_no_run(read: &Result<Script, ScriptFail>) -> bool {
    matches!(read, Err(ScriptFail::Bad(ScriptFault::NoRun)))
}

/// Whether a text is refused for want of a RUN line.
fn has_no_run(alloc: Global, text: &[u8]) -> bool {
    let read = read_short(alloc, text);
    is_no_run(&read)
}

// No text of one byte or two has a keyword.
#[test]
fn each_byte_and_each_pair_is_answered(rt: HostRuntime) {
    for first in 0..=255 {
        assert!(rt; has_no_run(rt.alloc(), &[first]), "{first}");
        for second in *b"RUN:ED.\\\r\n -_\xff" {
            assert!(rt;
                has_no_run(rt.alloc(), &[first, second]),
                "{first} {second}"
            );
        }
    }
}
