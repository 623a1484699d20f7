//! How texts read as paths.
use crate::rows::{Tells, each_is_told, no_row};
use lit_paths::{is_above, joined, read_path, text_of};
use std::alloc::Global;
use tt_base::{Bytes, NoMemory};

/// The path that a text is, joined to a directory.
fn shown(alloc: Global, dir: &str, text: &str) -> Result<Bytes, NoMemory> {
    let dir = read_path(alloc, dir.as_bytes())?;
    let path = joined(alloc, dir.as_slice(), text.as_bytes())?;
    text_of(alloc, path.as_slice())
}

/// The path that a text is, joined to a directory.
struct Paths;

impl Tells for Paths {
    fn told(&self, alloc: Global, given: &str) -> Result<Bytes, NoMemory> {
        match given.split_once(" => ") {
            Some((dir, text)) => shown(alloc, dir, text),
            None => no_row(alloc),
        }
    }
}

/// A directory, a text, and the path that it is.
const READ: &str = "/w => a//b/./c => /w/a/b/c
/w => ../x/ => /x
/w => /y/../../z => /z
/w =>  => /w
/ => .. => /
/w => ... => /w/...";

#[test]
fn texts_read_as_normal_paths(rt: HostRuntime) -> Result<(), NoMemory> {
    each_is_told(&rt, rt.alloc(), READ, &Paths)
}

/// `yes` where a path lies below another, else `no`.
fn lies_below(alloc: Global, dir: &str, path: &str) -> Result<&'static str, NoMemory> {
    let dir = read_path(alloc, dir.as_bytes())?;
    let path = read_path(alloc, path.as_bytes())?;
    Ok(if is_above(dir.as_slice(), path.as_slice()) {
        "yes"
    } else {
        "no"
    })
}

/// Whether the second path lies below the first one.
struct Below;

impl Tells for Below {
    fn told(&self, alloc: Global, given: &str) -> Result<Bytes, NoMemory> {
        match given.split_once(" => ") {
            Some((dir, path)) => Bytes::from_slice(alloc, lies_below(alloc, dir, path)?.as_bytes()),
            None => no_row(alloc),
        }
    }
}

const BELOW: &str = "/a => /a/b => yes
/ => /a => yes
/a => /a => no
/a => /ab/c => no
/a/b => /a => no";

#[test]
fn a_path_lies_below_the_directories_above_it(rt: HostRuntime) -> Result<(), NoMemory> {
    each_is_told(&rt, rt.alloc(), BELOW, &Below)
}
