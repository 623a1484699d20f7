//! The public calls on objects in memory, with ample memory.
use crate::hired::reply_to;
use crate::rows::{are_bytes, limited};
use std::alloc::Global;
use tt_base::{Bytes, Items, NoMemory};
use tt_outside::{
    Crew, Failed, Files, FilesFault, Left, MemCrew, MemFiles, MemSink, MemSource, Named, Planned,
    Reply, Request, SharedBytes, Sink, Source, TakeFault, take_all, write_all,
};

/// What taking a text up to a limit gives: its bytes, or that they are too many.
fn taken(alloc: Global, text: &str, limit: u32) -> Result<Bytes, NoMemory> {
    let mut source = MemSource::new(alloc, text.as_bytes(), &[])?;
    match take_all(alloc, &mut source, u64::from(limit)) {
        Ok(bytes) => Ok(bytes),
        Err(TakeFault::TooLarge) => Bytes::from_slice(alloc, b"too large"),
        Err(_) => Bytes::from_slice(alloc, b"another fault"),
    }
}

/// Whether the text of a row is taken so.
fn is_taken(alloc: Global, row: &str) -> Result<bool, NoMemory> {
    let Some((text, limit, due)) = limited(row) else {
        return Ok(false);
    };
    are_bytes(taken(alloc, text, limit), due.as_bytes())
}

/// A text, a limit, and what is taken.
const TAKEN: &str = "abc => 2 => too large
abc => 3 => abc
 => 0 => 
a => 0 => too large";

#[test]
fn all_bytes_are_taken_up_to_the_limit(rt: HostRuntime) -> Result<(), NoMemory> {
    for row in TAKEN.lines() {
        assert!(rt; is_taken(rt.alloc(), row)?, "{row}");
    }
    Ok(())
}

/// Whether bytes were taken whole, and are written whole.
fn are_whole(
    alloc: Global,
    taken: &Result<Bytes, TakeFault>,
    bytes: &[u8],
) -> Result<bool, NoMemory> {
    match taken {
        Ok(taken) => Ok(taken.as_slice() == bytes && is_written_whole(alloc, bytes)?),
        Err(_) => Ok(false),
    }
}

/// Whether bytes are taken whole, and written whole.
fn pass(alloc: Global, bytes: &[u8]) -> Result<bool, NoMemory> {
    let mut source = MemSource::new(alloc, bytes, &[])?;
    let taken = take_all(alloc, &mut source, 1 << 26);
    are_whole(alloc, &taken, bytes)
}

/// The same of so many bytes.
fn pass_whole(alloc: Global, length: usize) -> Result<bool, NoMemory> {
    let bytes = vec![in alloc; b'a'; length].or(Err(NoMemory))?;
    pass(alloc, bytes.as_slice())
}

/// Whether bytes are written whole where there is just room for them.
fn is_written_whole(alloc: Global, bytes: &[u8]) -> Result<bool, NoMemory> {
    let mut sink = MemSink::new(alloc, bytes.len())?;
    Ok(write_all(&mut sink, bytes) == Ok(()) && sink.as_slice() == bytes)
}

#[test]
fn large_sources_are_taken_whole(rt: HostRuntime) -> Result<(), NoMemory> {
    for length in [65_536usize, 65_537, 1 << 20, (1 << 21) + 1] {
        assert!(rt; pass_whole(rt.alloc(), length)?, "{length}");
    }
    Ok(())
}

#[test]
fn the_planned_reads_fail(rt: HostRuntime) -> Result<(), NoMemory> {
    let mut source = MemSource::new(rt.alloc(), b"abc", &[0])?;
    let mut buf = [0; 2];
    assert!(rt; source.read(&mut buf) == Err(Failed));
    assert!(rt; source.read(&mut buf) == Ok(2));
    assert!(rt; &buf == b"ab");
    Ok(())
}

#[test]
fn a_full_sink_fails(rt: HostRuntime) -> Result<(), NoMemory> {
    let mut sink = MemSink::new(rt.alloc(), 2)?;
    for (piece, ended) in [("", Ok(())), ("abc", Err(Failed))] {
        let written = write_all(&mut sink, piece.as_bytes());
        assert!(rt; written == ended, "{piece:?}: {written:?}");
    }
    assert!(rt; sink.as_slice() == b"ab".as_slice());
    assert!(rt; (sink.faults(), sink.write(b"")) == (1, Ok(0)));
    assert!(rt; sink.into_bytes().as_slice() == b"ab".as_slice());
    Ok(())
}

fn named(alloc: Global, name: &str, bytes: &str) -> Result<Named, NoMemory> {
    Ok(Named {
        name: Bytes::from_slice(alloc, name.as_bytes())?,
        bytes: Bytes::from_slice(alloc, bytes.as_bytes())?,
    })
}

/// So many files, each of which has its number as its name and its bytes.
fn numbered(alloc: Global, count: u16) -> Result<Items<Named>, NoMemory> {
    let mut all = Items::new(alloc);
    for number in 0..count {
        let Ok(name) = number.to_string(alloc) else {
            return Err(NoMemory);
        };
        all.push(named(alloc, name.as_str(), name.as_str())?)?;
    }
    Ok(all)
}

/// The bytes of a file, or why there are none.
fn read(alloc: Global, files: &mut MemFiles, name: &str, limit: u64) -> Result<Bytes, NoMemory> {
    let refusal = match files.read_all(alloc, name, limit) {
        Ok(bytes) => return Ok(bytes),
        Err(FilesFault::Missing) => "missing",
        Err(FilesFault::TooLarge { size: 3 }) => "3 are too many",
        Err(FilesFault::Failed) => "failed",
        Err(_) => "another fault",
    };
    Bytes::from_slice(alloc, refusal.as_bytes())
}

/// Whether the file of a row is read so.
fn is_read(alloc: Global, files: &mut MemFiles, row: &str) -> Result<bool, NoMemory> {
    let Some((name, limit, due)) = limited(row) else {
        return Ok(false);
    };
    are_bytes(read(alloc, files, name, u64::from(limit)), due.as_bytes())
}

/// Whether one of so many files is read so.
fn is_read_of(alloc: Global, count: u16, row: &str) -> Result<bool, NoMemory> {
    let mut files = MemFiles::new(alloc, numbered(alloc, count)?, &[])?;
    is_read(alloc, &mut files, row)
}

#[test]
fn two_thousand_files_are_kept(rt: HostRuntime) -> Result<(), NoMemory> {
    assert!(rt; is_read_of(rt.alloc(), 2_000, "1999 => 4 => 1999")?);
    Ok(())
}

/// Two files of one name, and an empty one. The fourth call fails.
fn three_files(alloc: Global) -> Result<MemFiles, NoMemory> {
    let mut all = Items::new(alloc);
    all.push(named(alloc, "a", "one")?)?;
    all.push(named(alloc, "a", "two")?)?;
    all.push(named(alloc, "e", "")?)?;
    MemFiles::new(alloc, all, &[3])
}

/// A name, a limit, and what is read.
const READ: &str = "a => 3 => one
b => 3 => missing
a => 2 => 3 are too many
a => 3 => failed
e => 0 => ";

#[test]
fn the_first_file_of_a_name_is_read(rt: HostRuntime) -> Result<(), NoMemory> {
    let mut files = three_files(rt.alloc())?;
    for row in READ.lines() {
        assert!(rt; is_read(rt.alloc(), &mut files, row)?, "{row}");
    }
    Ok(())
}

/// A program without words, for a crew in memory.
fn spawn(alloc: Global) -> Request {
    Request::Spawn {
        words: Items::new(alloc),
        dir: Bytes::new(alloc),
        env: Items::new(alloc),
        input: SharedBytes::none(),
        limit: 1,
    }
}

/// What the reply of a hand is that is hired for one test, and dismissed.
fn answer_in<C: Crew>(
    alloc: Global,
    crew: &mut C,
    test: u64,
    request: &Request,
) -> Result<&'static str, NoMemory>
    requires { C.ready crew.old }
    ensures { C.ready crew.new }
{
    let reply = reply_to(alloc, crew, test, request)?;
    Ok(name_of(&reply))
}

fn name_of(reply: &Reply) -> &'static str {
    match reply {
        Reply::Missing => "missing",
        Reply::Broken => "broken",
        _ => "another reply",
    }
}

/// A crew that breaks at the first request of test 3.
fn breaking_crew(alloc: Global) -> Result<MemCrew, NoMemory> {
    let mut plan = Items::new(alloc);
    plan.push(Planned {
        test: 3,
        earlier: 0,
        reply: Reply::Broken,
    })?;
    Ok(MemCrew::new(alloc, plan))
}

/// What hands answer that are hired for tests 1 and 3, one after the other.
fn answers(alloc: Global, crew: &mut MemCrew) -> Result<(&'static str, &'static str), NoMemory> {
    let request = spawn(alloc);
    let first = answer_in(alloc, crew, 1, &request)?;
    let second = answer_in(alloc, crew, 3, &request)?;
    Ok((first, second))
}

/// Whether a hand began this test alone, was asked once and failed so often.
fn has_worked(left: &Left, test: u64, faults: u64) -> bool {
    left.begun.as_slice() == [test].as_slice() && left.asked == 1 && left.faults == faults
}

/// Whether two hands were dismissed, of which the second one failed.
fn have_worked(hands: &[Left]) -> bool {
    match hands {
        [first, second] => has_worked(first, 1, 0) && has_worked(second, 3, 1),
        _ => false,
    }
}

#[test]
fn a_hand_answers_by_its_plan(rt: HostRuntime) -> Result<(), NoMemory> {
    let mut crew = breaking_crew(rt.alloc())?;
    let answers = answers(rt.alloc(), &mut crew)?;
    assert!(rt; answers == ("missing", "broken"), "{answers:?}");
    assert!(rt; have_worked(crew.hands()), "{:?}", crew.hands());
    Ok(())
}

fn file_asked(alloc: Global) -> Result<Request, NoMemory> {
    Ok(Request::ReadFile {
        path: Bytes::from_slice(alloc, b"f")?,
        limit: 10,
    })
}

#[test]
fn a_file_is_missing_where_nothing_is_planned(rt: HostRuntime) -> Result<(), NoMemory> {
    let alloc = rt.alloc();
    let mut crew = MemCrew::new(alloc, Items::new(alloc));
    let request = file_asked(alloc)?;
    assert!(rt; answer_in(alloc, &mut crew, 0, &request)? == "missing");
    assert!(rt; crew.hands().len() == 1);
    Ok(())
}
