//! The form in which a check file and an input are compared.
ghost use Rattle.std.specs.Prelude.{◌≡◌, ◌≤◌, ◌<◌, ◌+◌, ◌++◌, ℕ, List, IfOk, drop, get_or, length, map, take};
ghost use Rattle.check_lines.specs.Canonical.{canon, is_blank, is_kept, shown};
ghost use Rattle.check_lines.specs.Cut.{IsCut, IsOfCut, Piece};

use crate::chunk::{CHUNK, Rows, kept_in, shown_in};
use std::alloc::Global;
use tt_base::{Bytes, NoMemory};

/// The canonical form of a text. Offsets and places that are told later count in this text, not in the file.
pub fn canon(alloc: Global, text: &[u8], strict: bool) -> Result<Bytes, NoMemory>
    ensures exact { IfOk result (λ out. out ≡ canon strict text.now) }
    ensures cut { IfOk result (λ out. IsOfCut strict text.now out) }
{
    let copy = Bytes::from_slice(alloc, text)?;
    Ok(canon_owned(copy, strict))
}

/// A law that nothing calls: a text has one cut alone.
fn one_cut(text: &[u8])
    ensures { (one other : List Piece) → IsCut text.now one → IsCut text.now other → one ≡ other }
{}

/// The canonical form of a text, in the text's own memory.
pub fn canon_owned(bytes: Bytes, strict: bool) -> Bytes
    ensures exact { result ≡ canon strict bytes }
    ensures no_longer { length result ≤ length bytes }
{
    let mut text = bytes.into_vec();
    let done = canon_front(&mut text, strict);
    text.truncate(done);
    Bytes::from_vec(text)
}

/// Puts the canonical form of a text at its front, and answers how long it is.
fn canon_front(text: &mut [u8], strict: bool) -> usize
    ensures { take result text.new ≡ canon strict text.old }
{
    let rows = Rows::new();
    let mut done = 0;
    let mut at = 0;
    while text.len() - at > CHUNK {
        let kept = kept_in(text, strict, at);
        let chunk = shown_in(text, strict, at);
        done = rows.put(text, done, chunk, kept);
        at += CHUNK;
    }
    put_rest(text, strict, done, at)
}

/// Puts what is kept of the bytes from `at` on, each after it was looked at.
fn put_rest(text: &mut [u8], strict: bool, done: usize, at: usize) -> usize
    requires below { done ≤ at }
    requires within { at ≤ length text.old }
    ensures { take result text.new ≡ take done text.old ++ canon strict (drop at text.old) }
{
    let mut to = done;
    for k in at..text.len() {
        let byte = text[k];
        let kept = is_kept(strict, byte, byte_at(text, k + 1));
        text[to] = shown(strict, byte);
        to += kept as usize;
    }
    to
}

/// The byte at an offset, or 0 behind the end.
fn byte_at(text: &[u8], at: usize) -> u8
    ensures { result ≡ get_or text.now at 0 }
{
    if at < text.len() { text[at] } else { 0 }
}

/// Whether something stands for a byte before the next one. There is no branch.
#[inline(always)]
fn is_kept(strict: bool, byte: u8, next: u8) -> bool
    ensures { result ≡ is_kept strict byte next }
{
    !(((byte == b'\r') & (next == b'\n')) | ((!strict & is_blank(byte)) & is_blank(next)))
}

/// What stands for a byte that is kept: of the blanks a tab alone is another byte. There is no branch.
#[inline(always)]
fn shown(strict: bool, byte: u8) -> u8
    ensures { result ≡ shown strict byte }
{
    byte + (b' ' - b'\t') * (!strict & (byte == b'\t')) as u8
}

/// Whether a byte is a space or a tab.
#[inline(always)]
pub fn is_blank(byte: u8) -> bool
    ensures { result ≡ is_blank byte }
{
    (byte == b' ') | (byte == b'\t')
}
