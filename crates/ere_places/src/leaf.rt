//! Places that an expression with nothing inside leads to.
ghost use Rattle.std.specs.Prelude.{◌≡◌, ℕ, ◌↔◌, ◌≤◌, ◌+◌, ◌-◌, ◌==◌, ◌||◌, true, Some, IsTrue, IfOk, length, drop, take, slice_index};
ghost use Rattle.std.specs.List.{All};
ghost use Rattle.ere_tree.specs.Derivation.{part};
ghost use Rattle.ere_tree.specs.View.{view, members_of};
ghost use Rattle.ere_places.specs.Places.{IsInside, OtherEnd, LeadsInside, Finds, is_leaf};
ghost use Rattle.ere_tree.specs.Tree as trees;
ghost use Rattle.ere_tree.specs.Tree.{plain};

use crate::window::{Direction, Window};
use ere_tree::{ByteSet, Ere};
use std::alloc::{AllocError, Global};

/// Whether the place is the slice's start, or lies behind a newline.
fn is_line_start(text: &[u8], place: usize) -> bool
    requires { place ≤ length text.now }
    ensures { result ≡ (place == 0 || slice_index text.now (place - 1) == 10) }
{
    place == 0 || text[place - 1] == b'\n'
}

/// Whether the place is the slice's end, or lies before a newline.
fn is_line_end(text: &[u8], place: usize) -> bool
    requires { place ≤ length text.now }
    ensures { result ≡ (place == length text.now || slice_index text.now place == 10) }
{
    place == text.len() || text[place] == b'\n'
}

/// The place as it is, if the test holds.
fn stay(test: bool, place: usize) -> Option<usize>
    ensures { (q : ℕ) → (result ≡ Some q) ↔ ((q ≡ place) × IsTrue test) }
{
    if test { Some(place) } else { None }
}

/// Where so many bytes stand whose one end is the place: their start, and their other end. None where they don't
/// lie in the window.
fn other_end(window: Window, place: usize, count: usize) -> Option<(usize, usize)>
    requires { IsInside window place }
    ensures { (start q : ℕ) → (result ≡ Some (start, q)) ↔ OtherEnd window.direction window place count start q }
{
    match window.direction {
        Direction::Ahead => {
            if count <= window.high - place {
                Some((place, place + count))
            } else {
                None
            }
        }
        Direction::Back => {
            if count <= place - window.low {
                Some((place - count, place - count))
            } else {
                None
            }
        }
    }
}

/// Whether the bytes stand in the slice at the start.
fn stands(text: &[u8], start: usize, bytes: &[u8]) -> bool
    requires { start + length bytes.now ≤ length text.now }
    ensures { IsTrue result ↔ (part text.now start (start + length bytes.now) ≡ bytes.now) }
{
    &text[start..start + bytes.len()] == bytes
}

/// The place at the other end of bytes.
fn past_bytes(text: &[u8], window: Window, place: usize, bytes: &[u8]) -> Option<usize>
    requires inside { IsInside window place }
    requires window { window.high ≤ length text.now }
    ensures { (q : ℕ) → (result ≡ Some q) ↔ LeadsInside text.now (plain bytes.now) window place q }
{
    match other_end(window, place, bytes.len()) {
        Some((start, end)) => if stands(text, start, bytes) {
            Some(end)
        } else {
            None
        },
        None => None,
    }
}

/// The place at the other end of a byte of the set.
fn past_set(text: &[u8], window: Window, place: usize, set: &ByteSet) -> Option<usize>
    requires inside { IsInside window place }
    requires window { window.high ≤ length text.now }
    ensures { (q : ℕ) → (result ≡ Some q)
        ↔ LeadsInside text.now (trees.set (members_of set.now.bits)) window place q }
{
    match other_end(window, place, 1) {
        Some((start, end)) => if set.has(text[start]) {
            Some(end)
        } else {
            None
        },
        None => None,
    }
}

/// The place that an expression with nothing inside leads to.
fn past_leaf(ere: &Ere, text: &[u8], window: Window, place: usize) -> Option<usize>
    requires leaf { IsTrue (is_leaf (view ere.now)) }
    requires inside { IsInside window place }
    requires window { window.high ≤ length text.now }
    ensures { (q : ℕ) → (result ≡ Some q) ↔ LeadsInside text.now (view ere.now) window place q }
{
    match ere {
        Ere::Empty => Some(place),
        Ere::Plain(run) => past_bytes(text, window, place, run.as_slice()),
        Ere::Set(set) => past_set(text, window, place, set),
        Ere::LineStart => stay(is_line_start(text, place), place),
        Ere::LineEnd => stay(is_line_end(text, place), place),
        _ => None,
    }
}

/// The places that an expression with nothing inside leads to from some places.
pub(crate) fn past_leaves(
    alloc: Global,
    ere: &Ere,
    text: &[u8],
    window: Window,
    from: &[usize],
) -> Result<Vec<usize>, AllocError>
    requires leaf { IsTrue (is_leaf (view ere.now)) }
    requires inside { All (IsInside window) from.now }
    requires window { window.high ≤ length text.now }
    ensures { IfOk result (Finds text.now (view ere.now) window from.now) }
{
    let mut found = Vec::with_capacity(alloc, from.len())?;
    for place in from {
        if let Some(end) = past_leaf(ere, text, window, *place) {
            found.push(end)?;
        }
    }
    Ok(found)
}
