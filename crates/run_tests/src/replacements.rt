//! What lines become as names give way to their values.
use std::alloc::Global;
use substs::{ExpandFail, Texts, expand};
use tt_base::{Bytes, Items, NoMemory};
use tt_outside::Pair;

/// Names with their values.
fn texts(alloc: Global, told: &[(&str, &str)]) -> Result<Texts, NoMemory> {
    let mut pairs = Items::new(alloc);
    for (name, value) in told {
        let name = Bytes::from_slice(alloc, name.as_bytes())?;
        let value = Bytes::from_slice(alloc, value.as_bytes())?;
        pairs.push(Pair { name, value })?;
    }
    Ok(Texts { pairs })
}

/// What a line on line 3 becomes, where so many pairs are the suite's.
fn expanded(alloc: Global, line: &str, list: &Texts, suite: usize) -> Result<Bytes, ExpandFail> {
    if suite > list.pairs.len() || !list.are_named() {
        return Err(ExpandFail::NoMemory);
    }
    expand(alloc, line.as_bytes(), list, suite, 3)
}

/// Lines, and what they become on line 3.
const BECOME: &str =
    "tool > %t.o %%s %(line+2) => cc /w/demo/a.txt > /w/demo/Output/a.txt.tmp.o %s 5
%%%s => %/w/demo/a.txt
%%%%tool => %%cc /w/demo/a.txt
%(line) %(line-2) %(line-3) => 3 1 0
%(line-5) %(line+999999999) => -2 1000000002
%(line+1234567890) %(line+) %(line+1 => %(line+1234567890) %(line+) %(line+1
%(line+%(line)) => 6
% => %
 => ";

/// Whether the line of a row becomes what is behind the arrow.
fn becomes(alloc: Global, list: &Texts, row: &str) -> Result<bool, ExpandFail> {
    match row.split_once(" => ") {
        Some((line, due)) => Ok(expanded(alloc, line, list, 1)?.as_slice() == due.as_bytes()),
        None => Ok(false),
    }
}

#[test]
fn each_name_gives_way_to_its_value_in_turn(rt: HostRuntime) -> Result<(), ExpandFail> {
    // The first pair is the suite's.
    let list = texts(
        rt.alloc(),
        &[
            ("tool", "cc %s"),
            ("%s", "/w/demo/a.txt"),
            ("%t", "/w/demo/Output/a.txt.tmp"),
        ],
    )?;
    for row in BECOME.lines() {
        assert!(rt; becomes(rt.alloc(), &list, row)?, "{row}");
    }
    Ok(())
}

/// A long value, and an empty one.
fn long_texts(alloc: Global, length: usize) -> Result<Texts, ExpandFail> {
    let long = "a".repeat(alloc, length).or(Err(ExpandFail::NoMemory))?;
    Ok(texts(alloc, &[("%s", long.as_str()), ("%e", "")])?)
}

/// Whether a line becomes too long.
fn is_too_long(alloc: Global, list: &Texts, line: &str) -> bool {
    expanded(alloc, line, list, 0).err() == Some(ExpandFail::TooLong)
}

#[test]
fn a_line_has_up_to_a_mebibyte(rt: HostRuntime) -> Result<(), ExpandFail> {
    let list = long_texts(rt.alloc(), 1 << 19)?;
    assert!(rt; expanded(rt.alloc(), "%s%s", &list, 0)?.len() == 1 << 20);
    for line in ["%s%s%e.", "%s%%%s", "%s%s%%"] {
        assert!(rt; is_too_long(rt.alloc(), &list, line), "{line}");
    }
    Ok(())
}
