//! How often a byte stands in a text.
use byte_counts::count_of;
use std::alloc::Global;
use tt_base::{Bytes, NoMemory};

/// How many newlines so many lines have behind a front.
fn newlines_in(alloc: Global, front: &[u8], lines: usize) -> Result<usize, NoMemory> {
    let mut text = Bytes::from_slice(alloc, front)?;
    for _ in 0..lines {
        text.append(b"ab\n")?;
    }
    Ok(count_of(b'\n', text.as_slice()))
}

#[test]
fn each_newline_counts_in_texts_of_any_length(rt: HostRuntime) -> Result<(), NoMemory> {
    let alloc = rt.alloc();
    for lines in 0..100 {
        assert!(rt; newlines_in(alloc, b"", lines)? == lines, "{lines}");
        assert!(rt; newlines_in(alloc, b"x", lines)? == lines, "{lines}");
    }
    Ok(())
}
