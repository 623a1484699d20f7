//! What is kept of sixteen bytes of a text, decided and put together.
ghost use Rattle.std.specs.Prelude.{◌≡◌, ◌≤◌, ◌<◌, ◌+◌, ◌++◌, ◌&&◌, ◌==◌, ◌^◌, ℕ, drop, length, map, not, take};
ghost use Rattle.std.specs.Simd.Lanes.{mask_l};
ghost use Rattle.check_lines.specs.Canonical.{is_blank, shown};
ghost use Rattle.check_lines.specs.Chunk.{AreRows, ChunkPuts, IsRow, RowPuts, kept_flags, lane};

use std::simd::prelude::*;

/// How many bytes are looked at together.
pub const CHUNK: usize = 16;

/// How many bytes are put together where not all are kept.
const HALF: usize = 8;

/// Which bytes of a chunk something stands for, as bits, the first the lowest. A byte stands behind the chunk.
#[inline(always)]
pub fn kept_in(text: &[u8], strict: bool, at: usize) -> u64
    requires { at + CHUNK < length text.now }
    ensures flags { result ≡ mask_l (take CHUNK (kept_flags strict (drop at text.now))) }
    ensures small { result < 2 ^ CHUNK }
{
    let bytes = u8x16::from_slice(&text[at..]);
    let next = u8x16::from_slice(&text[at + 1..]);
    let pairs = equal_to(bytes, b'\r') & equal_to(next, b'\n');
    let runs = joined(bytes, strict) & blanks(next);
    (pairs | runs).simd_eq(u8x16::splat(0)).to_bitmask()
}

/// The bytes of a chunk as they are shown.
#[inline(always)]
pub fn shown_in(text: &[u8], strict: bool, at: usize) -> u8x16
    requires { at + CHUNK < length text.now }
    ensures { result ≡ map (shown strict) (take CHUNK (drop at text.now)) }
{
    let bytes = u8x16::from_slice(&text[at..]);
    joined(bytes, strict)
        .simd_eq(u8x16::splat(0))
        .select(bytes, u8x16::splat(b' '))
}

/// The lanes that count as blanks, which are none where each blank counts for itself.
#[inline(always)]
fn joined(bytes: u8x16, strict: bool) -> u8x16
    ensures { result ≡ map (λ byte. lane (not strict && is_blank byte)) bytes }
{
    u8x16::splat(if strict { 0 } else { 255 }) & blanks(bytes)
}

/// The lanes that are blanks.
#[inline(always)]
fn blanks(bytes: u8x16) -> u8x16
    ensures { result ≡ map (λ byte. lane (is_blank byte)) bytes }
{
    equal_to(bytes, b' ') | equal_to(bytes, b'\t')
}

/// The lanes that are a byte.
#[inline(always)]
fn equal_to(bytes: u8x16, byte: u8) -> u8x16
    ensures { result ≡ map (λ other. lane (other == byte)) bytes }
{
    bytes
        .simd_eq(u8x16::splat(byte))
        .select(u8x16::splat(255), u8x16::splat(0))
}

/// Of eight flags the places of those that are set, in order, and how many they are.
#[derive(Clone, Copy)]
struct Row {
    places: [u8; CHUNK],
    count: usize,
}

impl Row {
    /// The row of the flags that are the bits of a number, the lowest first.
    fn of(code: usize) -> Row
        ensures { IsRow code result }
    {
        let mut places = [0; CHUNK];
        let mut count = 0;
        let mut left = code;
        for place in 0..HALF {
            let set = left % 2 == 1;
            places[count] = place as u8;
            count += set as usize;
            left /= 2;
        }
        Row { places, count }
    }

    /// Puts the first bytes of a chunk whose flag is set, and answers where they end.
    #[inline(always)]
    fn put(&self, text: &mut [u8], done: usize, chunk: u8x16) -> usize
        requires row { (code : ℕ) × IsRow code self.now }
        requires room { done + HALF ≤ length text.old }
        ensures end { result ≤ done + HALF }
        ensures front { RowPuts self.now (take HALF chunk) done text.old text.new result }
        ensures rest { (from : ℕ) → done + HALF ≤ from → drop from text.new ≡ drop from text.old }
    {
        let picked = chunk.swizzle_dyn(u8x16::from_array(self.places));
        put_all(text, done, &picked.extract::<0, HALF>().to_array());
        done + self.count
    }
}

/// The rows of all eight flags.
#[derive(Drop)]
pub struct Rows {
    rows: [Row; 256],
}

impl Rows {
    /// Makes the rows, some microseconds' work.
    pub fn new() -> Rows
        ensures { AreRows result }
    {
        let mut rows = [Row::of(0); 256];
        for code in 0..rows.len() {
            rows[code] = Row::of(code);
        }
        Rows { rows }
    }

    /// Puts the bytes of a chunk whose bit is set, and answers where they end.
    #[inline(always)]
    pub fn put(&self, text: &mut [u8], done: usize, chunk: u8x16, kept: u64) -> usize
        requires rows { AreRows self.now }
        requires room { done + CHUNK ≤ length text.old }
        requires small { kept < 2 ^ CHUNK }
        ensures end { result ≤ done + CHUNK }
        ensures front { ChunkPuts kept chunk done text.old text.new result }
        ensures rest { (from : ℕ) → done + CHUNK ≤ from → drop from text.new ≡ drop from text.old }
    {
        if kept == 0xffff {
            put_all(text, done, &chunk.to_array());
            done + CHUNK
        } else {
            let half = self.rows[(kept % 256) as usize].put(text, done, chunk);
            self.rows[(kept / 256) as usize].put(text, half, chunk.rotate_elements_left::<HALF>())
        }
    }
}

/// Puts bytes, each one.
#[inline(always)]
fn put_all<const N: usize>(text: &mut [u8], done: usize, bytes: &[u8; N])
    requires { done + N ≤ length text.old }
    ensures front { take (done + N) text.new ≡ take done text.old ++ bytes.now }
    ensures rest { (from : ℕ) → done + N ≤ from → drop from text.new ≡ drop from text.old }
{
    text[done..done + N].copy_from_slice(bytes);
}
