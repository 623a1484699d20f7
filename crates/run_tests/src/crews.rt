//! A test over planned replies, and what was asked of it, in few words.
use crate::rows::{bytes_of, shared_of};
use std::alloc::Global;
use tt_base::{Bytes, Items, NoMemory};
use tt_outside::{
    Entry, Finish, MemCrew, Pair, Planned, Reply, Request, SharedItems, Stream, Test,
};

fn pair(alloc: Global, name: &str, value: &str) -> Result<Pair, NoMemory> {
    let name = bytes_of(alloc, name)?;
    let value = bytes_of(alloc, value)?;
    Ok(Pair { name, value })
}

/// One item.
fn one<T: Drop>(alloc: Global, item: T) -> Result<Items<T>, NoMemory> {
    let mut items = Items::new(alloc);
    items.push(item)?;
    Ok(items)
}

/// One item, shared.
fn one_shared<T: Drop>(alloc: Global, item: T) -> Result<SharedItems<T>, NoMemory> {
    SharedItems::new(alloc, one(alloc, item)?)
}

/// The file of a test, and its directory, which is another than the one in which its commands run.
fn sources(alloc: Global) -> Result<(Bytes, Bytes), NoMemory> {
    let path = bytes_of(alloc, "/w/p.txt")?;
    let source_dir = bytes_of(alloc, "/s")?;
    Ok((path, source_dir))
}

/// Where its commands run, the directory of its temporary files, and how their paths begin.
fn places(alloc: Global) -> Result<(Bytes, Bytes, Bytes), NoMemory> {
    let work_dir = bytes_of(alloc, "/w")?;
    let temp_dir = bytes_of(alloc, "/w/t")?;
    let temp = bytes_of(alloc, "/w/t/p.tmp")?;
    Ok((work_dir, temp_dir, temp))
}

/// What a suite gives its tests: the feature `linux`, the tool `tool` at `/bin/tool`, and E as `e` in the environment.
fn given(
    alloc: Global,
) -> Result<(SharedItems<Bytes>, SharedItems<Pair>, SharedItems<Pair>), NoMemory> {
    let features = one_shared(alloc, bytes_of(alloc, "linux")?)?;
    let tools = one_shared(alloc, pair(alloc, "tool", "/bin/tool")?)?;
    let environment = one_shared(alloc, pair(alloc, "E", "e")?)?;
    Ok((features, tools, environment))
}

/// The test `/w/p.txt`, whose commands run in `/w`.
pub(crate) fn test_at_w(alloc: Global) -> Result<Test, NoMemory> {
    let substitutions = SharedItems::new(alloc, Items::new(alloc))?;
    let (path, source_dir) = sources(alloc)?;
    let (work_dir, temp_dir, temp) = places(alloc)?;
    let (features, tools, environment) = given(alloc)?;
    Ok(Test {
        name: Bytes::new(alloc),
        path,
        source_dir,
        work_dir,
        temp_dir,
        temp,
        features,
        substitutions,
        tools,
        environment,
    })
}

fn ended(alloc: Global, finish: Finish, out: &str, err: &str) -> Result<Reply, NoMemory> {
    let out = shared_of(alloc, out)?;
    let err = shared_of(alloc, err)?;
    Ok(Reply::Status { finish, out, err })
}

/// The number that a digit is.
fn digit(byte: u8) -> u8 {
    byte.saturating_sub(b'0')
}

/// A program that ended with the code that a word begins with, and wrote the rest: output, and errors behind a `!`.
fn coded(alloc: Global, word: &str) -> Result<Reply, NoMemory> {
    let code = digit(word.bytes().next().unwrap_or(b'0'));
    let rest = word.get(1..).unwrap_or("");
    let (out, err) = rest.split_once('!').unwrap_or((rest, ""));
    ended(alloc, Finish::Code(code), out, err)
}

/// A reply in a few letters: `c0` is code 0, with what was written behind it; `s` signal 11; `f` a file with what follows;
/// `m` Missing; `t`, `o` and `e` a file, an output and errors that are too large; all else is Broken.
fn reply_of(alloc: Global, word: &str) -> Result<Reply, NoMemory> {
    let rest = word.get(1..).unwrap_or("");
    match word.bytes().next() {
        Some(b'c') => coded(alloc, rest),
        Some(b's') => ended(alloc, Finish::Signal(11), "", ""),
        Some(b'f') => Ok(Reply::Bytes(shared_of(alloc, rest)?)),
        Some(b'm') => Ok(Reply::Missing),
        Some(b't') => Ok(Reply::TooLarge(Stream::File)),
        Some(b'o') => Ok(Reply::TooLarge(Stream::Out)),
        Some(b'e') => Ok(Reply::TooLarge(Stream::Err)),
        _ => Ok(Reply::Broken),
    }
}

/// A word of a row: the number of entries before it, and a reply.
fn planned(alloc: Global, word: &str) -> Result<Planned, NoMemory> {
    let earlier = digit(word.bytes().next().unwrap_or(b'0'));
    let reply = reply_of(alloc, word.get(1..).unwrap_or(""))?;
    Ok(Planned {
        test: 0,
        earlier: u64::from(earlier),
        reply,
    })
}

/// A crew that answers test 0 by the words of a row, of which the first may be the file of a test.
pub(crate) fn crew_of(alloc: Global, file: Option<&str>, words: &str) -> Result<MemCrew, NoMemory> {
    let mut replies = Items::new(alloc);
    if let Some(file) = file {
        let reply = Reply::Bytes(shared_of(alloc, file)?);
        replies.push(Planned {
            test: 0,
            earlier: 0,
            reply,
        })?;
    }
    for word in words.split(' ') {
        if !word.is_empty() {
            replies.push(planned(alloc, word)?)?;
        }
    }
    Ok(MemCrew::new(alloc, replies))
}

fn show_words(out: &mut Bytes, words: &[Bytes]) -> Result<(), NoMemory> {
    for word in words {
        out.append(b" ")?;
        out.append(word.as_slice())?;
    }
    Ok(())
}

/// A request: `read` or `make` with a path, `write` or `append` with a path and bytes, or a directory, `$`, the words of a
/// program, and its input behind a `<`, if there is any.
fn show(out: &mut Bytes, request: &Request) -> Result<(), NoMemory> {
    match request {
        Request::ReadFile { path, .. } => show_part(out, b"read ", path.as_slice()),
        Request::MakeDir { path } => show_part(out, b"make ", path.as_slice()),
        Request::WriteFile {
            path,
            bytes,
            append,
        } => {
            let head: &[u8] = if *append { b"append " } else { b"write " };
            show_part(out, head, path.as_slice())?;
            show_part(out, b" ", bytes.as_slice())
        }
        Request::Spawn {
            words,
            dir,
            input,
            ..
        } => {
            show_part(out, dir.as_slice(), b"$")?;
            show_words(out, words.as_slice())?;
            if input.is_empty() {
                return Ok(());
            }
            show_part(out, b" < ", input.as_slice())
        }
    }
}

fn show_part(out: &mut Bytes, head: &[u8], rest: &[u8]) -> Result<(), NoMemory> {
    out.append(head)?;
    out.append(rest)
}

/// What was asked, request by request.
pub(crate) fn asked(alloc: Global, entries: &[Entry]) -> Result<Bytes, NoMemory> {
    let mut out = Bytes::new(alloc);
    for entry in entries {
        if !out.is_empty() {
            out.append(b"; ")?;
        }
        show(&mut out, &entry.request)?;
    }
    Ok(out)
}
