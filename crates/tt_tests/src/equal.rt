//! Copies and comparisons of what a test asks and is answered, and bytes that move in pieces.
use std::alloc::Global;
use tt_base::{Bytes, Items, NoMemory};
use tt_outside::{
    Entry, Finish, MemSink, MemSource, Pair, Reply, Request, SharedBytes, Sink, Source, Stream,
};

fn text(alloc: Global, bytes: &[u8]) -> Result<Bytes, NoMemory> {
    Bytes::from_slice(alloc, bytes)
}

fn pairs(alloc: Global, name: &[u8], value: &[u8]) -> Result<Items<Pair>, NoMemory> {
    let mut pairs = Items::new(alloc);
    pairs.push(Pair {
        name: text(alloc, name)?,
        value: text(alloc, value)?,
    })?;
    Ok(pairs)
}

/// The words `llc` and this.
fn words(alloc: Global, word: &[u8]) -> Result<Items<Bytes>, NoMemory> {
    let mut words = Items::new(alloc);
    words.push(text(alloc, b"llc")?)?;
    words.push(text(alloc, word)?)?;
    Ok(words)
}

/// These words, and a variable.
fn command(alloc: Global, word: &[u8]) -> Result<(Items<Bytes>, Items<Pair>), NoMemory> {
    let words = words(alloc, word)?;
    Ok((words, pairs(alloc, b"LANG", b"C")?))
}

/// A directory, and an input.
fn place(alloc: Global, input: &[u8]) -> Result<(Bytes, SharedBytes), NoMemory> {
    let dir = text(alloc, b"/w")?;
    Ok((dir, SharedBytes::from_slice(alloc, input)?))
}

/// A program that is started with this word and this input.
fn spawned(alloc: Global, word: &[u8], input: &[u8]) -> Result<Request, NoMemory> {
    let (words, env) = command(alloc, word)?;
    let (dir, input) = place(alloc, input)?;
    Ok(Request::Spawn {
        words,
        dir,
        env,
        input,
        limit: 10,
    })
}

fn made_dir(alloc: Global, path: &[u8]) -> Result<Request, NoMemory> {
    Ok(Request::MakeDir {
        path: text(alloc, path)?,
    })
}

/// What a line asks: a program with a word and an input, or a directory that is made.
fn asked(alloc: Global, line: &str) -> Result<Request, NoMemory> {
    match line.split_once(' ') {
        Some((word, input)) => spawned(alloc, word.as_bytes(), input.as_bytes()),
        None => made_dir(alloc, line.as_bytes()),
    }
}

/// Whether a line asks the same as a request.
fn asks_the_same(alloc: Global, request: &Request, line: &str) -> Result<bool, NoMemory> {
    let other = asked(alloc, line)?;
    Ok(request.same(&other))
}

/// Whether two lines ask the same.
fn ask_the_same(alloc: Global, one: &str, other: &str) -> Result<bool, NoMemory> {
    let one = asked(alloc, one)?;
    asks_the_same(alloc, &one, other)
}

/// Whether a copy of a request asks the same.
fn is_copied(alloc: Global, request: &Request) -> Result<bool, NoMemory> {
    let copy = request.copy(alloc)?;
    Ok(request.same(&copy))
}

/// Whether a copy asks the same.
fn copy_asks_the_same(alloc: Global, line: &str) -> Result<bool, NoMemory> {
    let asked = asked(alloc, line)?;
    is_copied(alloc, &asked)
}

#[test]
fn requests_are_equal_in_all_that_they_ask(rt: HostRuntime) -> Result<(), NoMemory> {
    let alloc = rt.alloc();
    assert!(rt; copy_asks_the_same(alloc, "-O2 x")?);
    for other in ["-O3 x", "-O2 xx", "/w"] {
        assert!(rt; !ask_the_same(alloc, "-O2 x", other)?, "{other}");
    }
    Ok(())
}

fn ended(alloc: Global, out: &[u8]) -> Result<Reply, NoMemory> {
    Ok(Reply::Status {
        finish: Finish::Code(1),
        out: SharedBytes::from_slice(alloc, out)?,
        err: SharedBytes::none(),
    })
}

fn replied(alloc: Global) -> Result<Entry, NoMemory> {
    let request = spawned(alloc, b"-O2", b"x")?;
    let reply = ended(alloc, b"y")?;
    Ok(Entry { request, reply })
}

/// Whether an entry and its copy are the same.
fn is_its_copy(alloc: Global, entry: &Entry) -> Result<bool, NoMemory> {
    let copy = entry.copy(alloc)?;
    Ok(entry.same(&copy))
}

/// Whether it is the same with another reply.
fn is_the_same_with_another(alloc: Global, entry: &Entry) -> Result<bool, NoMemory> {
    let other = Entry {
        request: entry.request.copy(alloc)?,
        reply: Reply::TooLarge(Stream::Out),
    };
    Ok(entry.same(&other))
}

fn copy_is_the_same(alloc: Global) -> Result<bool, NoMemory> {
    let entry = replied(alloc)?;
    is_its_copy(alloc, &entry)
}

fn other_reply_is_the_same(alloc: Global) -> Result<bool, NoMemory> {
    let entry = replied(alloc)?;
    is_the_same_with_another(alloc, &entry)
}

#[test]
fn entries_are_equal_in_request_and_reply(rt: HostRuntime) -> Result<(), NoMemory> {
    assert!(rt; copy_is_the_same(rt.alloc())?);
    assert!(rt; !other_reply_is_the_same(rt.alloc())?);
    Ok(())
}

/// Whether one that holds `abc` is given it.
fn is_given(alloc: Global, shared: SharedBytes) -> Result<bool, NoMemory> {
    let bytes = shared.into_bytes(alloc)?;
    Ok(bytes.as_slice() == b"abc".as_slice())
}

/// Whether each of two that hold bytes is given them, the second as the only one.
fn are_given_to_both(alloc: Global) -> Result<bool, NoMemory> {
    let one = SharedBytes::from_slice(alloc, b"abc")?;
    let other = one.share()?;
    let is_first = is_given(alloc, one)?;
    Ok(is_given(alloc, other)? && is_first)
}

/// Whether no bytes are none, also once they are given.
fn are_none(alloc: Global) -> Result<bool, NoMemory> {
    let none = SharedBytes::new(alloc, Bytes::new(alloc))?;
    let is_empty = none.is_empty();
    Ok(none.into_bytes(alloc)?.is_empty() && is_empty)
}

#[test]
fn shared_bytes_are_given_to_each_that_holds_them(rt: HostRuntime) -> Result<(), NoMemory> {
    assert!(rt; are_given_to_both(rt.alloc())?);
    assert!(rt; are_none(rt.alloc())?);
    Ok(())
}

/// Whether three bytes come two at a time.
fn come_in_pieces(alloc: Global) -> Result<bool, NoMemory> {
    let mut source = MemSource::in_pieces(alloc, b"abc", 2)?;
    let mut buf = [0; 3];
    for count in [2, 1, 0] {
        if source.read(&mut buf) != Ok(count) {
            return Ok(false);
        }
    }
    Ok(true)
}

/// Whether bytes go two at a time, as long as there is room for three.
fn go_in_pieces(alloc: Global) -> Result<bool, NoMemory> {
    let mut sink = MemSink::in_pieces(alloc, 2, 3)?;
    let are_two = sink.write(b"abc") == Ok(2) && sink.write(b"cd") == Ok(1);
    Ok(are_two && sink.as_slice() == b"abc".as_slice())
}

#[test]
fn bytes_in_memory_move_in_pieces(rt: HostRuntime) -> Result<(), NoMemory> {
    assert!(rt; come_in_pieces(rt.alloc())?, "from a source");
    assert!(rt; go_in_pieces(rt.alloc())?, "into a sink");
    Ok(())
}
