//! Where an expression with nothing inside leads.
ghost use Rattle.std.specs.Prelude.{◌≡◌, ℕ, ◌↔◌, ◌≤◌, ◌*◌, ◌+◌, ◌-◌, ◌==◌, ◌||◌, Some, IsTrue, length, slice_index};
ghost use Rattle.ere_tree.specs.Derivation.{Spans, part};
ghost use Rattle.ere_tree.specs.Tree.{plain, set};
ghost use Rattle.ere_tree.specs.View.{view, members_of};
ghost use Rattle.ere_places.specs.Places.{is_leaf};
ghost use Rattle.ere_whole.specs.Places.{AreInside, AreReached};

use crate::places::{Places, WIDTH};
use ere_tree::{ByteSet, Ere};

/// Whether the place is the text's start, or lies behind a newline.
fn is_line_start(text: &[u8], place: usize) -> bool
    requires { place ≤ length text.now }
    ensures { result ≡ (place == 0 || slice_index text.now (place - 1) == 10) }
{
    place == 0 || text[place - 1] == b'\n'
}

/// Whether the place is the text's end, or lies before a newline.
fn is_line_end(text: &[u8], place: usize) -> bool
    requires { place ≤ length text.now }
    ensures { result ≡ (place == length text.now || slice_index text.now place == 10) }
{
    place == text.len() || text[place] == b'\n'
}

/// The place as it is, if the test holds.
fn stay(test: bool, place: usize) -> Option<usize>
    ensures { (q : ℕ) → (result ≡ Some q) ↔ ((q ≡ place) × IsTrue test) }
{
    if test { Some(place) } else { None }
}

/// Whether the bytes stand in the text at the place.
fn stands(text: &[u8], place: usize, bytes: &[u8]) -> bool
    requires { place + length bytes.now ≤ length text.now }
    ensures { IsTrue result ↔ (part text.now place (place + length bytes.now) ≡ bytes.now) }
{
    &text[place..place + bytes.len()] == bytes
}

/// The end of these bytes, where they stand at the place.
fn end_of_bytes(text: &[u8], place: usize, bytes: &[u8]) -> Option<usize>
    requires { place ≤ length text.now }
    ensures { (q : ℕ) → (result ≡ Some q) ↔ Spans text.now (plain bytes.now) place q }
{
    if text.len() - place < bytes.len() {
        return None;
    }
    if stands(text, place, bytes) {
        Some(place + bytes.len())
    } else {
        None
    }
}

/// The end of a byte of the set, where one stands at the place.
fn end_of_set(text: &[u8], place: usize, one: &ByteSet) -> Option<usize>
    requires { place ≤ length text.now }
    ensures { (q : ℕ) → (result ≡ Some q) ↔ Spans text.now (set (members_of one.now.bits)) place q }
{
    if place == text.len() {
        return None;
    }
    if one.has(text[place]) {
        Some(place + 1)
    } else {
        None
    }
}

/// The end of what an expression with nothing inside spans from a place.
fn end_of_leaf(ere: &Ere, text: &[u8], place: usize) -> Option<usize>
    requires leaf { IsTrue (is_leaf (view ere.now)) }
    requires within { place ≤ length text.now }
    ensures { (q : ℕ) → (result ≡ Some q) ↔ Spans text.now (view ere.now) place q }
{
    match ere {
        Ere::Empty => Some(place),
        Ere::Plain(run) => end_of_bytes(text, place, run.as_slice()),
        Ere::Set(set) => end_of_set(text, place, set),
        Ere::LineStart => stay(is_line_start(text, place), place),
        Ere::LineEnd => stay(is_line_end(text, place), place),
        _ => None,
    }
}

/// The places of a block to which an expression with nothing inside leads.
pub(crate) fn past_leaf(ere: &Ere, text: &[u8], from: &Places, block: usize) -> Places
    requires leaf { IsTrue (is_leaf (view ere.now)) }
    requires within { from.now.block * 256 ≤ length text.now }
    requires inside { AreInside text.now from.now }
    ensures block { result.block ≡ block }
    ensures exact { AreReached (Spans text.now (view ere.now)) from.now result }
{
    let mut found = Places::none(block);
    let first = from.block * WIDTH;
    let last = text.len().min(first + (WIDTH - 1));
    for place in first..last + 1 {
        if from.has(place) {
            if let Some(end) = end_of_leaf(ere, text, place) {
                found.put(end);
            }
        }
    }
    found
}
