//! Cases of the public calls with ample memory.
use crate::plain::{plain_first, plain_place};
use crate::rows::are_bytes;
use std::alloc::Global;
use tt_base::{Bytes, Items, NoMemory, Place, Span, find_in, line_of, place_of};

#[test]
fn places_count_from_one(rt: HostRuntime) {
    for (text, at, line, col) in [("ab\nc", 3, 2, 1), ("ab\nc", 2, 1, 3), ("", 0, 1, 1)] {
        let place = place_of(text.as_bytes(), at);
        assert!(rt; place == Place { line, col }, "offset {at} of {text:?}");
    }
}

#[test]
fn a_line_ends_before_its_newline(rt: HostRuntime) {
    for (at, from, to) in [(1, 0, 2), (2, 0, 2), (3, 3, 4)] {
        let line = line_of(b"ab\nc", at);
        assert!(rt; (line.from, line.to) == (from, to), "offset {at}");
    }
}

/// A list of bytes that grows.
fn two_bytes(alloc: Global) -> Result<Bytes, NoMemory> {
    let mut bytes = Bytes::from_slice(alloc, b"a")?;
    bytes.append(b"b")?;
    Ok(bytes)
}

/// A list of one item.
fn one_item(alloc: Global, item: u8) -> Result<Items<u8>, NoMemory> {
    let mut items = Items::new(alloc);
    items.push(item)?;
    Ok(items)
}

#[test]
fn lists_grow_and_searches_find(rt: HostRuntime) -> Result<(), NoMemory> {
    assert!(rt; are_bytes(two_bytes(rt.alloc()), b"ab")?);
    assert!(rt; is_one(one_item(rt.alloc(), 1)?, 1));
    assert!(rt; find_in(b"abab", b"ab", 1, 4) == Some(2));
    assert!(rt; find_in(b"abab", b"ab", 1, 3).is_none());
    Ok(())
}

/// The length of a list of so many items.
fn many_items(alloc: Global, count: u16) -> Result<usize, NoMemory> {
    let mut items = Items::new(alloc);
    for item in 0..count {
        items.push(item)?;
    }
    Ok(items.len())
}

/// Adds so many bytes, one by one.
fn add_bytes(bytes: &mut Bytes, count: u16) -> Result<(), NoMemory> {
    for _ in 0..count {
        bytes.append(b"b")?;
    }
    Ok(())
}

/// The length of a text, so many bytes behind it one by one, and the text again.
fn around(alloc: Global, text: &[u8], count: u16) -> Result<usize, NoMemory> {
    let mut bytes = Bytes::from_slice(alloc, text)?;
    add_bytes(&mut bytes, count)?;
    bytes.append(text)?;
    Ok(bytes.len())
}

/// The same of a large text.
fn many_bytes(alloc: Global, count: u16) -> Result<usize, NoMemory> {
    let large = vec![in alloc; b'a'; 1 << 21].or(Err(NoMemory))?;
    around(alloc, large.as_slice(), count)
}

/// Whether a list with much room has nothing.
fn is_empty(alloc: Global) -> Result<bool, NoMemory> {
    Ok(Bytes::with_capacity(alloc, 1 << 21)?.is_empty())
}

#[test]
fn lists_grow_as_far_as_there_is_memory(rt: HostRuntime) -> Result<(), NoMemory> {
    let alloc = rt.alloc();
    assert!(rt; many_items(alloc, 2_000)? == 2_000);
    assert!(rt; many_bytes(alloc, 5_000)? == (1 << 22) + 5_000);
    assert!(rt; is_empty(alloc)?);
    Ok(())
}

/// Whether a list of these bytes is the same once it became a vector and a list again.
fn is_bytes_again(alloc: Global, text: &[u8]) -> Result<bool, NoMemory> {
    let mut bytes = Bytes::with_capacity(alloc, 2)?;
    bytes.append(text)?;
    Ok(is_text(Bytes::from_vec(bytes.into_vec()), text))
}

fn is_text(bytes: Bytes, text: &[u8]) -> bool {
    bytes.len() == text.len() && bytes.as_slice() == text
}

/// The same of a list of one item.
fn is_item_again(alloc: Global, item: u8) -> Result<bool, NoMemory> {
    Ok(is_one(Items::from_vec(one_item(alloc, item)?.into_vec()), item))
}

fn is_one(items: Items<u8>, item: u8) -> bool {
    items.len() == 1 && items.as_slice() == [item].as_slice()
}

/// Whether new lists have nothing.
fn are_empty(alloc: Global) -> bool {
    Bytes::new(alloc).is_empty() && Items::<u8>::new(alloc).is_empty()
}

#[test]
fn lists_come_from_vectors_and_go_back(rt: HostRuntime) -> Result<(), NoMemory> {
    let alloc = rt.alloc();
    assert!(rt; are_empty(alloc));
    assert!(rt; is_bytes_again(alloc, b"ab")?);
    assert!(rt; is_item_again(alloc, 7)?);
    let span = Span::of(3, 2);
    assert!(rt; (span.from, span.to) == (3, 5));
    Ok(())
}

#[test]
fn the_fast_searches_are_the_plain_ones(rt: HostRuntime) {
    let needles = [b"".as_slice(), b"a", b"\n", b"aa", b"a\n", b"\na", b"\n\n"];
    for length in 0..6 {
        for number in 0..32u8 {
            let mut text = [b'a'; 5];
            for at in 0..5 {
                if number & (1 << at) != 0 {
                    text[at] = b'\n';
                }
            }
            let front = &text[..length];
            assert!(rt; place_of(&text, length) == plain_place(front), "{front:?}");
            for needle in needles {
                let first = find_in(&text, needle, 0, length);
                let is_plain = first == plain_first(needle, 0, front);
                assert!(rt; is_plain, "{needle:?} in {front:?}");
            }
        }
    }
}
