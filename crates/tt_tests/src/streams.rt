//! The system's streams and files, and a reader that fails in mid-stream.
use crate::paths::own_path;
use std::alloc::{AllocError, Global};
use std::io::{self, ErrorKind, Read};
use std::{fs, process};
use tt_outside::{Failed, Files, Sink, Source, TakeFault, take_all, write_all};
use tt_real::{ReaderSource, StdErr, StdFiles, StdOut, StdSource, WriterSink};

/// Whether a file is read as these bytes, or not for this reason.
fn is_read<F: Files>(
    alloc: Global,
    files: &mut F,
    name: &str,
    limit: u64,
    due: &[u8],
) -> Result<bool, AllocError> {
    match files.read_all(alloc, name, limit) {
        Ok(bytes) => Ok(bytes.as_slice() == due),
        Err(fault) => Ok(format!(in alloc; "{fault:?}")?.as_str().as_bytes() == due),
    }
}

#[test]
fn files_are_read_up_to_the_limit(rt: HostRuntime) -> io::Result<()> {
    let alloc = rt.alloc();
    let path = own_path(&rt, "tt_real_", process::id(rt.process()), "")?;
    let path = path.as_str();
    fs::write(&rt, path, "abc")?;
    let mut files = StdFiles::new(rt);
    let is_whole = is_read(alloc, &mut files, path, 3, b"abc")?;
    let is_refused = is_read(alloc, &mut files, path, 2, b"TooLarge { size: 3 }")?;
    fs::remove_file(&rt, path)?;
    assert!(rt; is_whole, "up to the limit");
    assert!(rt; is_refused, "past the limit");
    Ok(())
}

#[test]
fn a_name_with_blanks_at_its_ends_is_that_name(rt: HostRuntime) -> io::Result<()> {
    let alloc = rt.alloc();
    let path = own_path(&rt, " tt_real_blank_", process::id(rt.process()), " ")?;
    let path = path.as_str();
    fs::write(&rt, path, "abc")?;
    let mut files = StdFiles::new(rt);
    let is_whole = is_read(alloc, &mut files, path, 3, b"abc")?;
    let is_missing = is_read(alloc, &mut files, path.trim_end(), 3, b"Missing")?;
    fs::remove_file(&rt, path)?;
    assert!(rt; is_whole, "the name as it is");
    assert!(rt; is_missing, "the name without its last blank");
    Ok(())
}

#[test]
fn a_file_whose_size_is_told_too_small_is_read_whole(rt: HostRuntime) -> io::Result<()> {
    let path = "/proc/version";
    assert!(rt; fs::metadata(&rt, path)?.len() == 0);
    let whole = fs::read(&rt, path)?;
    assert!(rt; whole.len() > 0);
    let mut files = StdFiles::new(rt);
    assert!(rt; is_read(rt.alloc(), &mut files, path, 1 << 16, whole.as_slice())?);
    Ok(())
}

#[test]
fn only_a_name_that_is_not_found_is_missing(rt: HostRuntime) -> Result<(), AllocError> {
    let mut files = StdFiles::new(rt);
    for (name, due) in [
        ("/no such file", "Missing"),
        ("/", "Failed"),
        ("a\0b", "Failed"),
    ] {
        let is_due = is_read(rt.alloc(), &mut files, name, 0, due.as_bytes())?;
        assert!(rt; is_due, "{name:?}");
    }
    Ok(())
}

#[test]
fn the_standard_streams_take_nothing(rt: HostRuntime) {
    assert!(rt; StdSource::new(rt.stdin()).read(&mut []) == Ok(0));
    assert!(rt; write_all(&mut StdOut::new(rt.stdout()), b"") == Ok(()));
    assert!(rt; StdErr::new(rt.stderr()).write(b"") == Ok(0));
}

/// Answers each read by the next of its turns: a byte, or an error of a kind.
#[derive(Drop)]
struct Turns<'a>(&'a [Result<u8, ErrorKind>]);

impl Read for Turns<'_> {
    fn read(&mut self, buf: &mut [u8]) -> io::Result<usize> {
        let [turn, rest @ ..] = self.0 else {
            return Ok(0);
        };
        self.0 = rest;
        match turn {
            Ok(byte) => {
                if buf.is_empty() {
                    return Ok(0);
                }
                buf[0] = *byte;
                Ok(1)
            }
            Err(kind) => Err(io::Error::from(*kind)),
        }
    }
}

/// Whether bytes of which the second read errs by a kind are taken as these, or not for this reason.
fn is_taken(alloc: Global, kind: ErrorKind, due: Result<&[u8], TakeFault>) -> bool {
    let turns = [Ok(b'a'), Err(kind), Ok(b'b')];
    let mut source = ReaderSource::new(Turns(&turns));
    match (take_all(alloc, &mut source, 2), due) {
        (Ok(taken), Ok(all)) => taken.as_slice() == all,
        (Err(fault), Err(refusal)) => fault == refusal,
        (_, _) => false,
    }
}

#[test]
fn only_an_interrupted_read_is_begun_again(rt: HostRuntime) {
    for (kind, due) in [
        (ErrorKind::Interrupted, Ok(b"ab".as_slice())),
        (ErrorKind::WouldBlock, Err(TakeFault::Failed)),
        (ErrorKind::Other, Err(TakeFault::Failed)),
    ] {
        assert!(rt; is_taken(rt.alloc(), kind, due), "{kind:?}");
    }
}

/// Errs at its first write by a kind, and takes the others whole.
#[derive(Drop)]
struct ErrsOnce(Option<ErrorKind>);

impl io::Write for ErrsOnce {
    fn write(&mut self, piece: &[u8]) -> io::Result<usize> {
        match self.0.take() {
            Some(kind) => Err(io::Error::from(kind)),
            None => Ok(piece.len()),
        }
    }

    fn flush(&mut self) -> io::Result<()> {
        Ok(())
    }
}

#[test]
fn only_an_interrupted_write_is_begun_again(rt: HostRuntime) {
    let cases = [
        (ErrorKind::Interrupted, Ok(2)),
        (ErrorKind::WouldBlock, Err(Failed)),
        (ErrorKind::Other, Err(Failed)),
    ];
    for (kind, expected) in cases {
        let mut sink = WriterSink::new(ErrsOnce(Some(kind)));
        assert!(rt; sink.write(b"ab") == expected, "{kind:?}");
    }
}

/// Takes no byte of any piece.
#[derive(Drop)]
struct Stuck;

impl io::Write for Stuck {
    fn write(&mut self, _piece: &[u8]) -> io::Result<usize> {
        Ok(0)
    }

    fn flush(&mut self) -> io::Result<()> {
        Ok(())
    }
}

#[test]
fn a_writer_that_takes_no_byte_fails(rt: HostRuntime) {
    assert!(rt; WriterSink::new(Stuck).write(b"a") == Err(Failed));
}
