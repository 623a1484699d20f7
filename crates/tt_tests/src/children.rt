//! Programs that a hand runs: how they are fed and drained, how they end, and what they leave.
use crate::hired::reply_to;
use crate::rows::three;
use std::alloc::{AllocError, Global};
use std::process::Abort;
use tt_base::{Bytes, Items, NoMemory};
use tt_outside::{Crew, Finish, Pair, Reply, Request, SharedBytes, Stream};
use tt_real::StdCrew;

/// A variable.
fn pair(alloc: Global) -> Result<Items<Pair>, NoMemory> {
    let mut env = Items::new(alloc);
    env.push(Pair {
        name: Bytes::from_slice(alloc, b"A")?,
        value: Bytes::from_slice(alloc, b"b c")?,
    })?;
    Ok(env)
}

/// The words of a program, with a comma and a blank between them.
fn words_of(alloc: Global, program: &str) -> Result<Items<Bytes>, NoMemory> {
    let mut words = Items::new(alloc);
    for word in program.split(", ") {
        words.push(Bytes::from_slice(alloc, word.as_bytes())?)?;
    }
    Ok(words)
}

/// The words of a program, and a variable.
fn command(alloc: Global, program: &str) -> Result<(Items<Bytes>, Items<Pair>), NoMemory> {
    let words = words_of(alloc, program)?;
    Ok((words, pair(alloc)?))
}

/// The root, and an input.
fn place(alloc: Global, input: &[u8]) -> Result<(Bytes, SharedBytes), NoMemory> {
    let dir = Bytes::from_slice(alloc, b"/")?;
    Ok((dir, SharedBytes::from_slice(alloc, input)?))
}

/// A request to run a program. It runs in the root, with a variable more.
fn spawn(alloc: Global, program: &str, input: &[u8], limit: u64) -> Result<Request, NoMemory> {
    let (words, env) = command(alloc, program)?;
    let (dir, input) = place(alloc, input)?;
    Ok(Request::Spawn {
        words,
        dir,
        env,
        input,
        limit,
    })
}

/// How a program ended, in a word.
fn word_of(finish: Finish) -> &'static str {
    match finish {
        Finish::Code(_) => "code",
        Finish::Signal(_) => "signal",
    }
}

fn number_of(finish: Finish) -> u8 {
    match finish {
        Finish::Code(code) => code,
        Finish::Signal(signal) => signal,
    }
}

/// What a reply tells, in few words.
fn shown(reply: &Reply) -> (&str, u8, usize, usize) {
    match reply {
        Reply::Status { finish, out, err } => {
            (word_of(*finish), number_of(*finish), out.len(), err.len())
        }
        Reply::TooLarge(Stream::Out) => ("too much output", 0, 0, 0),
        Reply::TooLarge(Stream::Err) => ("too many errors", 0, 0, 0),
        Reply::Missing => ("missing", 0, 0, 0),
        Reply::Broken => ("broken", 0, 0, 0),
        Reply::Bytes(_) | Reply::Written | Reply::TooLarge(Stream::File) => ("other", 0, 0, 0),
    }
}

/// A reply in words: how the program ended, and the lengths of its output and its errors.
fn in_words(alloc: Global, reply: &Reply) -> Result<String, AllocError> {
    let (word, number, out, err) = shown(reply);
    format!(in alloc; "{word} {number} {out} {err}")
}

/// Whether a text was made, and is this.
fn is_text(told: Result<String, AllocError>, due: &str) -> Result<bool, NoMemory> {
    match told {
        Ok(told) => Ok(told.as_str() == due),
        Err(AllocError) => Err(NoMemory),
    }
}

/// Whether this is told of a request.
fn answers<C: Crew>(
    alloc: Global,
    crew: &mut C,
    request: &Request,
    due: &str,
) -> Result<bool, NoMemory>
    requires { C.ready crew.old }
    ensures { C.ready crew.new }
{
    let reply = reply_to(alloc, crew, 0, request)?;
    is_text(in_words(alloc, &reply), due)
}

/// The four fields of a row, of which two are numbers.
fn fields(row: &str) -> Option<(&str, usize, u64, &str)> {
    let (program, length, rest) = three(row)?;
    let (limit, due) = rest.split_once(" => ")?;
    Some((program, length.parse().ok()?, limit.parse().ok()?, due))
}

/// The request of a program that is fed so many bytes.
fn fed(alloc: Global, program: &str, length: usize, limit: u64) -> Result<Request, NoMemory> {
    let input = Vec::from_elem(alloc, b'x', length).or(Err(NoMemory))?;
    spawn(alloc, program, input.as_slice(), limit)
}

/// Whether the program of a row is told of so.
fn is_told<C: Crew>(alloc: Global, crew: &mut C, row: &str) -> Result<bool, NoMemory>
    requires { C.ready crew.old }
    ensures { C.ready crew.new }
{
    let Some((program, length, limit, due)) = fields(row) else {
        return Ok(false);
    };
    let request = fed(alloc, program, length, limit)?;
    answers(alloc, crew, &request, due)
}

/// Sees that the programs of rows are told of so by the hands of a crew.
fn each_is_told(
    rt: &impl Abort,
    alloc: Global,
    crew: &mut StdCrew<HostRuntime>,
    rows: &str,
) -> Result<(), NoMemory> {
    for row in rows.lines() {
        assert!(rt; is_told(alloc, crew, row)?, "{row}");
    }
    Ok(())
}

/// The same of a crew of their own.
fn all_are_told(
    rt: &impl Abort,
    alloc: Global,
    crew: StdCrew<HostRuntime>,
    rows: &str,
) -> Result<(), NoMemory> {
    let mut crew = crew;
    each_is_told(rt, alloc, &mut crew, rows)
}

/// A program, the length of its input, the limit of its output, and its reply in words.
const FED: &str = "true => 1048576 => 10 => code 0 0 0
cat => 1048576 => 1048576 => code 0 1048576 0
sh, -c, cat; echo e >&2 => 2 => 10 => code 0 2 2
cat => 1048576 => 10 => too much output 0 0 0
cat => 100 => 10 => too much output 0 0 0
sh, -c, head -c 4096 => 4096 => 4096 => code 0 4096 0
sh, -c, cat >&2; echo a => 4097 => 4097 => code 0 2 4097
sh, -c, head -c 200000 /dev/zero >&2; cat => 200000 => 200000 => code 0 200000 200000
sh, -c, exec 3<&0; sleep 99 <&3 3<&- >&- 2>&- & echo a => 200000 => 10 => code 0 2 0
sh, -c, exec >&- 2>&-; sleep 0.1; test $(wc -c) = 200000 => 200000 => 0 => code 0 0 0
sh, -c, head -c 70000; exec >&-; sleep 0.1; wc -c >&2 => 200000 => 70000 => code 0 70000 7
sh, -c, head -c 11 /dev/zero >&2; head -c 11 /dev/zero => 0 => 10 => too much output 0 0 0
sh, -c, test $(pwd) = / -a -n \"$PATH\" -a \"$A\" = 'b c' => 0 => 0 => code 0 0 0
no-such-program => 0 => 10 => missing 0 0 0";

#[test]
fn children_are_fed_drained_and_waited_for(rt: HostRuntime) -> Result<(), NoMemory> {
    all_are_told(&rt, rt.alloc(), StdCrew::new(rt.alloc(), rt), FED)
}

const ENDS: &str = "true => 0 => 10 => code 0 0 0
sh, -c, exit 7 => 0 => 10 => code 7 0 0
sh, -c, kill -9 $$ => 0 => 10 => signal 9 0 0
/ => 0 => 10 => broken 0 0 0";

#[test]
fn the_end_of_a_child_is_told(rt: HostRuntime) -> Result<(), NoMemory> {
    all_are_told(&rt, rt.alloc(), StdCrew::new(rt.alloc(), rt), ENDS)
}

/// A child that tells whether its parent has few descriptors and few children, once each that has ended was waited for.
const FEW_ARE_OPEN: &str = "sh, -c, \
for i in $(seq 100); do \
z=$(for c in $(cat /proc/$PPID/task/*/children); do grep 'State:.Z' /proc/$c/status; done 2> /dev/null); \
test -z \"$z\" && break; sleep 0.1; done; \
test -z \"$z\" -a $(ls /proc/$PPID/fd | wc -l) -lt 64 -a $(cat /proc/$PPID/task/*/children 2> /dev/null | wc -w) -lt 64 => 0 => 4096 => code 0 0 0";

/// How many programs are started: more than the descriptors and the children that their parent may have then.
const STARTS: u64 = 100;

/// A program that is started.
const STARTED: &str = "true => 1 => 10 => code 0 0 0";

/// Programs that are ended since they write too much; the last one would go on, and has a child of its own.
const ENDED: &str = "yes => 0 => 65536 => too much output 0 0 0
sh, -c, exec yes >&2 => 0 => 65536 => too many errors 0 0 0
sh, -c, yes >&2 & sleep 99 => 0 => 65536 => too many errors 0 0 0";

#[test]
fn children_leave_no_descriptor_and_no_process(rt: HostRuntime) -> Result<(), NoMemory> {
    let alloc = rt.alloc();
    let mut crew = StdCrew::new(alloc, rt);
    for _ in 0..STARTS {
        each_is_told(&rt, alloc, &mut crew, STARTED)?;
    }
    each_is_told(&rt, alloc, &mut crew, ENDED)?;
    each_is_told(&rt, alloc, &mut crew, FEW_ARE_OPEN)
}

/// The same of inputs of 64 MiB.
const LARGE: &str = "cat => 67108864 => 67108864 => code 0 67108864 0
cat => 67108864 => 67108863 => too much output 0 0 0";

#[test]
fn a_child_may_have_64_mebibytes_each_way(rt: HostRuntime) -> Result<(), NoMemory> {
    all_are_told(&rt, rt.alloc(), StdCrew::new(rt.alloc(), rt), LARGE)
}
