//! Runs of `lit` on a tree, a crew and streams in memory: by any number of workers, and where a call fails.
use crate::demo::{Demo, demo_of};
use crate::rows::{add_number, are_both, are_bytes, both, three};
use lit_tool::lit_run;
use std::alloc::Global;
use std::process::Abort;
use std::sync::Wait;
use std::thread::Threads;
use tt_base::{Bytes, Items, NoMemory};
use tt_outside::{ItemKind, Left, MemCrew, MemSink, MemTree, Node, are_nested};

/// The number of a call that is never reached.
const NEVER: u64 = 99_999;

/// Room for all that these tests write.
const AMPLE: usize = 1 << 12;

/// The files of a suite, apart from its tests.
pub(crate) const SUITE: &str = "version = 1~name = \"demo\"~suffixes = [\".txt\"]~";

/// Tests, each with the code of its program, as their files have them and as they are answered.
const TESTS: &str =
    "0 a.txt: RUN: true; 1 b.txt: RUN: false; 1 c.txt: RUN: false~XFAIL: *; 0 d.txt: RUN: true~REQUIRES: gpu; 0 e.txt: hello";

/// What is told of them.
pub(crate) const REPORT: &str = "-- Testing: 5 tests --
PASS: demo :: a.txt (1 of 5)
FAIL: demo :: b.txt (2 of 5)
XFAIL: demo :: c.txt (3 of 5)
UNSUPPORTED: demo :: d.txt (4 of 5)
UNRESOLVED: demo :: e.txt (5 of 5)
********************
Unresolved Tests (1):
  demo :: e.txt

Failed Tests (1):
  demo :: b.txt

Testing done: 5 tests
  Unsupported: 1
  Passed: 1
  Expectedly Failed: 1
  Unresolved: 1
  Failed: 1
";

/// How many bytes of it come before the first test's.
const HEADER: usize = 23;

pub(crate) fn node(alloc: Global, file: &str, text: &str) -> Result<Node, NoMemory> {
    let path = both(alloc, "/w/demo/", file)?;
    let bytes = both(alloc, text, "")?;
    Ok(Node {
        path,
        kind: ItemKind::File,
        bytes,
    })
}

/// The files of the suite.
fn nodes(alloc: Global) -> Result<Items<Node>, NoMemory> {
    let mut nodes = Items::new(alloc);
    nodes.push(node(alloc, "lit.suite.toml", SUITE)?)?;
    for field in TESTS.split("; ") {
        let (_, rest) = field.split_once(" ").unwrap_or(("", field));
        let (file, text) = rest.split_once(": ").unwrap_or((rest, ""));
        nodes.push(node(alloc, file, text)?)?;
    }
    Ok(nodes)
}

/// The tree of the suite, of which this call fails.
pub(crate) fn tree_of(alloc: Global, call: u64) -> Result<MemTree, NoMemory> {
    let nodes = nodes(alloc)?;
    if !are_nested(alloc, nodes.as_slice())? {
        return Err(NoMemory);
    }
    MemTree::new(alloc, b"/w".as_slice(), nodes, &[call])
}

/// A crew that answers as its tests' programs do.
pub(crate) fn crew_of(alloc: Global) -> Result<MemCrew, NoMemory> {
    let Demo { tests, plan } = demo_of(alloc, TESTS)?;
    drop(tests);
    Ok(MemCrew::new(alloc, plan))
}

/// The words of a line, with a blank between them.
pub(crate) fn words(alloc: Global, line: &str) -> Result<Vec<String>, NoMemory> {
    let mut words = Vec::new(alloc);
    for word in line.split(" ") {
        let word = String::from_str(alloc, word).or(Err(NoMemory))?;
        words.push(word).or(Err(NoMemory))?;
    }
    Ok(words)
}

/// What lit writes on.
#[derive(Drop)]
pub(crate) struct Streams {
    pub out: MemSink,
    pub err: MemSink,
}

/// Two of them, of which `out` has so much room.
pub(crate) fn sinks_of(alloc: Global, room: usize) -> Result<Streams, NoMemory> {
    let out = MemSink::new(alloc, room)?;
    let err = MemSink::new(alloc, AMPLE)?;
    Ok(Streams { out, err })
}

/// The status of a run.
fn status_of<R: Threads + Wait + Sync>(
    rt: &R,
    alloc: Global,
    words: &[String],
    tree: &mut MemTree,
    crew: &mut MemCrew,
    streams: &mut Streams,
) -> u8 {
    let end = lit_run(
        rt,
        alloc,
        words,
        tree,
        crew,
        &mut streams.out,
        &mut streams.err,
    );
    let status = end.status;
    drop(end);
    status
}

/// How many hands were dismissed, and how many requests they answered.
fn add_hands(out: &mut Bytes, hands: &[Left]) -> Result<(), NoMemory> {
    let mut asked: u64 = 0;
    for left in hands {
        asked = asked.saturating_add(left.asked);
    }
    add_number(out, hands.len() as u64)?;
    out.append(b" ")?;
    add_number(out, asked)?;
    out.append(b" ")
}

/// What a run tells, errors first, behind its status, the number of hands and that of their requests.
fn told_of(
    alloc: Global,
    status: u8,
    hands: &[Left],
    streams: &Streams,
) -> Result<Bytes, NoMemory> {
    let mut told = Bytes::from_slice(alloc, &[b'0' + status.min(9), b' '])?;
    add_hands(&mut told, hands)?;
    told.append(streams.err.as_slice())?;
    told.append(streams.out.as_slice())?;
    Ok(told)
}

/// The same of words and a tree, where `out` has so much room.
fn told_on<R: Threads + Wait + Sync>(
    rt: &R,
    alloc: Global,
    words: &[String],
    tree: &mut MemTree,
    room: usize,
) -> Result<Bytes, NoMemory> {
    let mut streams = sinks_of(alloc, room)?;
    let mut crew = crew_of(alloc)?;
    let status = status_of(rt, alloc, words, tree, &mut crew, &mut streams);
    let told = told_of(alloc, status, crew.hands(), &streams);
    drop(crew);
    drop(streams);
    told
}

/// The same of a line of words, where a call of the tree fails.
fn told_by<R: Threads + Wait + Sync>(
    rt: &R,
    alloc: Global,
    line: &str,
    call: u64,
    room: usize,
) -> Result<Bytes, NoMemory> {
    let words = words(alloc, line)?;
    let mut tree = tree_of(alloc, call)?;
    let told = told_on(rt, alloc, words.as_slice(), &mut tree, room);
    drop(tree);
    drop(words);
    told
}

/// Whether this is told of a line where `out` has so much room: a head, and of the report as much as there is room for.
fn is_cut<R: Threads + Wait + Sync>(
    rt: &R,
    alloc: Global,
    line: &str,
    room: usize,
    head: &str,
) -> Result<bool, NoMemory> {
    let told = told_by(rt, alloc, line, NEVER, room);
    are_both(alloc, told, head, REPORT.get(..room).unwrap_or(REPORT))
}

#[test]
fn any_number_of_workers_answers_and_reports_as_one(rt: HostRuntime) -> Result<(), NoMemory> {
    for (line, head) in [
        ("-j 1 demo", "1 1 11 "),
        ("-j 2 demo", "1 2 11 "),
        ("-j 8 demo", "1 8 11 "),
        ("-j 64 demo", "1 64 11 "),
    ] {
        assert!(rt; is_cut(&rt, rt.alloc(), line, AMPLE, head)?, "{line}");
    }
    Ok(())
}

#[test]
fn a_report_is_written_as_far_as_there_is_room(rt: HostRuntime) -> Result<(), NoMemory> {
    for room in 0..REPORT.len() {
        let head = if room < HEADER {
            "3 0 0 lit: error: cannot write~"
        } else {
            "3 8 11 lit: error: cannot write~"
        };
        assert!(rt; is_cut(&rt, rt.alloc(), "-j 8 demo", room, head)?, "{room}");
    }
    Ok(())
}

/// The call of the tree that fails, and how much room `out` has; words; and the status, the number of hands, that of their requests,
/// and what is told, errors first.
const FAULTS: &str = "0 4096 => --show-tests demo => 3 0 0 lit: error: cannot read the tree~
1 4096 => --show-tests demo => 3 0 0 lit: error: cannot read the tree~
0 4096 => demo => 3 0 0 lit: error: cannot read the tree~
- 5 => --show-tests demo => 3 0 0 lit: error: cannot write~-- Av
- 5 => demo => 3 0 0 lit: error: cannot write~-- Te
- 40 => demo => 3 1 11 lit: error: cannot write~-- Testing: 5 tests --~PASS: demo :: a.t";

fn is_told<R: Threads + Wait + Sync>(rt: &R, alloc: Global, row: &str) -> Result<bool, NoMemory> {
    let Some((setting, line, due)) = three(row) else {
        return Ok(false);
    };
    let (call, room) = setting.split_once(" ").unwrap_or(("", ""));
    let call = call.parse::<u64>().unwrap_or(NEVER);
    let room = room.parse::<usize>().unwrap_or(0);
    are_both(alloc, told_by(rt, alloc, line, call, room), due, "")
}

/// Sees that this is told of each row.
fn each_is_told<R: Threads + Wait + Sync + Abort>(
    rt: &R,
    alloc: Global,
    rows: &str,
) -> Result<(), NoMemory> {
    for row in rows.lines() {
        assert!(rt; is_told(rt, alloc, row)?, "{row}");
    }
    Ok(())
}

#[test]
fn faults_have_status_3(rt: HostRuntime) -> Result<(), NoMemory> {
    each_is_told(&rt, rt.alloc(), FAULTS)
}

/// The same of reports in JSON, each whole or as far as there is room.
const IN_JSON: &str =
    "- 4096 => --json demo => 1 1 11 {\"counts\":{\"FAIL\":1,\"PASS\":1,\"UNRESOLVED\":1,\"UNSUPPORTED\":1,\"XFAIL\":1},\"tests\":[{\"name\":\"demo :: a.txt\",\"path\":\"/w/demo/a.txt\",\"result\":\"PASS\"},{\"name\":\"demo :: b.txt\",\"path\":\"/w/demo/b.txt\",\"result\":\"FAIL\"},{\"name\":\"demo :: c.txt\",\"path\":\"/w/demo/c.txt\",\"result\":\"XFAIL\"},{\"name\":\"demo :: d.txt\",\"path\":\"/w/demo/d.txt\",\"result\":\"UNSUPPORTED\"},{\"name\":\"demo :: e.txt\",\"path\":\"/w/demo/e.txt\",\"result\":\"UNRESOLVED\"}],\"version\":1}~
- 4096 => demo -j 8 --json => 1 8 11 {\"counts\":{\"FAIL\":1,\"PASS\":1,\"UNRESOLVED\":1,\"UNSUPPORTED\":1,\"XFAIL\":1},\"tests\":[{\"name\":\"demo :: a.txt\",\"path\":\"/w/demo/a.txt\",\"result\":\"PASS\"},{\"name\":\"demo :: b.txt\",\"path\":\"/w/demo/b.txt\",\"result\":\"FAIL\"},{\"name\":\"demo :: c.txt\",\"path\":\"/w/demo/c.txt\",\"result\":\"XFAIL\"},{\"name\":\"demo :: d.txt\",\"path\":\"/w/demo/d.txt\",\"result\":\"UNSUPPORTED\"},{\"name\":\"demo :: e.txt\",\"path\":\"/w/demo/e.txt\",\"result\":\"UNRESOLVED\"}],\"version\":1}~
- 5 => demo --json => 3 1 11 lit: error: cannot write~{\"cou
- 0 => demo --json -j 2 => 3 2 11 lit: error: cannot write~
- 4096 => demo --json -v => 2 0 0 lit: error: these options don't fit together~";

#[test]
fn a_report_in_json_is_written_at_the_end(rt: HostRuntime) -> Result<(), NoMemory> {
    each_is_told(&rt, rt.alloc(), IN_JSON)
}

/// The tree of the suite, with a test more, whose name isn't text.
fn odd_tree(alloc: Global) -> Result<MemTree, NoMemory> {
    let mut nodes = nodes(alloc)?;
    nodes.push(Node {
        path: Bytes::from_slice(alloc, b"/w/demo/\xff.txt")?,
        kind: ItemKind::File,
        bytes: Bytes::new(alloc),
    })?;
    if !are_nested(alloc, nodes.as_slice())? {
        return Err(NoMemory);
    }
    MemTree::new(alloc, b"/w".as_slice(), nodes, &[NEVER])
}

/// Whether this is told of a line over it.
fn is_odd<R: Threads + Wait + Sync>(
    rt: &R,
    alloc: Global,
    line: &str,
    due: &[u8],
) -> Result<bool, NoMemory> {
    let words = words(alloc, line)?;
    let mut tree = odd_tree(alloc)?;
    are_bytes(told_on(rt, alloc, words.as_slice(), &mut tree, AMPLE), due)
}

#[test]
fn a_name_that_is_no_text_is_refused_before_the_run(rt: HostRuntime) -> Result<(), NoMemory> {
    let due = b"2 0 0 lit: error: name isn't text\n";
    assert!(rt; is_odd(&rt, rt.alloc(), "--json demo", due)?);
    Ok(())
}
