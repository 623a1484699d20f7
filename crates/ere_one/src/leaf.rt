//! Walks along what has nothing inside, and along repeats of sets.
ghost use Rattle.std.specs.Prelude.{◌≡◌, ◌↔◌, ◌≤◌, IsTrue, length};
ghost use Rattle.ere_tree.specs.Derivation.{is_line_start, is_line_end};
ghost use Rattle.ere_tree.specs.Tree as trees;
ghost use Rattle.ere_tree.specs.View.{members_of};
ghost use Rattle.ere_one.specs.Walk.{Tells, Stand, IsRun, limit_of, IsApart};
ghost use Rattle.ere_one.specs.declared.follow.Follow.{Follow};

use crate::follow::Follow;
use crate::walking::Walked;
use ere_tree::ByteSet;

/// Whether the bytes stand at the place.
fn stand_at(bytes: &[u8], slice: &[u8], at: usize) -> bool
    requires { at ≤ length slice.now }
    ensures { IsTrue result ↔ Stand slice.now bytes.now at }
{
    bytes.len() <= slice.len() - at && &slice[at..at + bytes.len()] == bytes
}

/// Bytes that stand for themselves.
pub(crate) fn walk_bytes(bytes: &[u8], slice: &[u8], at: usize) -> Walked
    requires { at ≤ length slice.now }
    ensures { (follow : Follow) → Tells slice.now (trees.plain bytes.now) follow at result }
{
    if stand_at(bytes, slice, at) {
        Walked::Ends(at + bytes.len())
    } else {
        Walked::Nowhere
    }
}

/// One byte of a set.
pub(crate) fn walk_set(set: &ByteSet, slice: &[u8], at: usize) -> Walked
    ensures { (follow : Follow) → Tells slice.now (trees.set (members_of set.now.bits)) follow at result }
{
    if at < slice.len() && set.has(slice[at]) {
        Walked::Ends(at + 1)
    } else {
        Walked::Nowhere
    }
}

/// Whether the place is the slice's start, or lies behind a newline.
fn is_line_start(slice: &[u8], at: usize) -> bool
    requires { at ≤ length slice.now }
    ensures { result ≡ is_line_start slice.now at }
{
    at == 0 || slice[at - 1] == b'\n'
}

/// Whether the place is the slice's end, or lies before a newline.
fn is_line_end(slice: &[u8], at: usize) -> bool
    requires { at ≤ length slice.now }
    ensures { result ≡ is_line_end slice.now at }
{
    at == slice.len() || slice[at] == b'\n'
}

/// `^`.
pub(crate) fn walk_line_start(slice: &[u8], at: usize) -> Walked
    requires { at ≤ length slice.now }
    ensures { (follow : Follow) → Tells slice.now trees.line_start follow at result }
{
    if is_line_start(slice, at) {
        Walked::Ends(at)
    } else {
        Walked::Nowhere
    }
}

/// `$`.
pub(crate) fn walk_line_end(slice: &[u8], at: usize) -> Walked
    requires { at ≤ length slice.now }
    ensures { (follow : Follow) → Tells slice.now trees.line_end follow at result }
{
    if is_line_end(slice, at) {
        Walked::Ends(at)
    } else {
        Walked::Nowhere
    }
}

/// Where the bytes of the set end that stand at a place, at the limit at the latest.
fn run_end(set: &ByteSet, slice: &[u8], at: usize, limit: usize) -> usize
    requires order { at ≤ limit }
    requires within { limit ≤ length slice.now }
    ensures { IsRun slice.now (members_of set.now.bits) at limit result }
{
    for index in at..limit {
        if !set.has(slice[index]) {
            return index;
        }
    }
    limit
}

/// Where so many bytes end from a place on, at the slice's end at the latest.
fn limit_of(slice: &[u8], at: usize, most: Option<u32>) -> usize
    ensures { result ≡ limit_of slice.now at most }
{
    match most {
        Some(most) => slice.len().min(at.saturating_add(most as usize)),
        None => slice.len(),
    }
}

/// Whether what stands behind the bytes of a set begins with none of them.
fn is_apart(set: &ByteSet, follow: Follow) -> bool
    ensures { IsTrue result → IsApart (members_of set.now.bits) follow }
{
    match follow {
        Follow::End => true,
        Follow::Byte(byte) => !set.has(byte),
        Follow::Any => false,
    }
}

/// Bytes of a set, at least `least` and at most `most` of them.
pub(crate) fn walk_sets(
    set: &ByteSet,
    least: u32,
    most: Option<u32>,
    slice: &[u8],
    at: usize,
    follow: Follow,
) -> Walked
    requires { at ≤ length slice.now }
    ensures { Tells slice.now (trees.repeat (trees.set (members_of set.now.bits)) least most) follow at result }
{
    let end = run_end(set, slice, at, limit_of(slice, at, most));
    if end - at < least as usize {
        Walked::Nowhere
    } else if end - at == least as usize || is_apart(set, follow) {
        Walked::Ends(end)
    } else {
        Walked::Unknown
    }
}
