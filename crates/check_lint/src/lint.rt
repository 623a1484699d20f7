//! What is told of a check file.
ghost use Rattle.std.specs.Prelude.{◌≤◌, ◌^◌, All, IfOk, IfSome, OnOk, length};

use crate::meant::{Meant, is_right, meant_by};
use crate::word::next_word;
use std::alloc::Global;
use tt_base::{Bytes, NoMemory, line_of};

/// A line that looks like a directive.
#[derive(Drop, Debug)]
pub struct LintRemark {
    /// The offset of the word that is amiss.
    pub at: usize,
    /// The directive that may have been meant, with its colon.
    pub meant: Bytes,
}

/// The lines of a check file that look like directives by these prefixes and are none, in order.
pub fn remarks(alloc: Global, text: &[u8], prefixes: &[Bytes]) -> Result<Vec<LintRemark>, NoMemory>
    requires { length text.now ≤ 2 ^ 30 }
    ensures placed { IfOk result (λ remarks. All (λ remark. remark.at ≤ length text.now) remarks.items) }
{
    let mut remarks = Vec::new(alloc);
    let mut start = 0;
    loop {
        let end = line_of(text, start).to;
        add_line(alloc, &mut remarks, text, start, end, prefixes)?;
        if end == text.len() {
            return Ok(remarks);
        }
        start = end + 1;
    }
}

/// Adds what is told of a line.
fn add_line(
    alloc: Global,
    remarks: &mut Vec<LintRemark>,
    text: &[u8],
    start: usize,
    end: usize,
    prefixes: &[Bytes],
) -> Result<(), NoMemory>
    requires within { (start ≤ end) × (end ≤ length text.now) }
    requires placed { All (λ remark. remark.at ≤ length text.now) remarks.old.items }
    ensures placed { OnOk result (All (λ remark. remark.at ≤ length text.now) remarks.new.items) }
{
    let Some((at, meant)) = amiss(&text[start..end], prefixes) else {
        return Ok(());
    };
    let remark = LintRemark {
        at: start + at,
        meant: meant.spelled(alloc)?,
    };
    match remarks.push(remark) {
        Ok(()) => Ok(()),
        Err(_) => Err(NoMemory),
    }
}

/// The offset of the word of a line that is amiss, and what may have been meant; none where the line has a directive.
fn amiss<'a>(line: &'a [u8], prefixes: &'a [Bytes]) -> Option<(usize, Meant<'a>)>
    ensures { IfSome result (λ found. found.0 ≤ length line.now) }
{
    let mut found = None;
    let (mut from, mut to) = next_word(line, 0);
    let mut is_first = true;
    while from < to {
        let (name, rest) = (&line[from..to], &line[to..]);
        if is_right(name, rest, prefixes) {
            return None;
        }
        if found.is_none() {
            if let Some(meant) = first_meant(name, rest, is_first, prefixes) {
                found = Some((from, meant));
            }
        }
        is_first = false;
        (from, to) = next_word(line, to);
    }
    found
}

/// What may have been meant by a word, by the first prefix that tells.
fn first_meant<'a>(
    name: &'a [u8],
    rest: &'a [u8],
    is_first: bool,
    prefixes: &'a [Bytes],
) -> Option<Meant<'a>> {
    for prefix in prefixes {
        if let Some(meant) = meant_by(name, rest, is_first, prefix.as_slice()) {
            return Some(meant);
        }
    }
    None
}
