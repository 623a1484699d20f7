//! Where a match can begin, as plain text tells.
ghost use Rattle.std.specs.Prelude.{◌≡◌, ℕ, ◌<◌, ◌≤◌, ◌+◌, length, map};
ghost use Rattle.ere_tree.specs.Tree.{cat, plain, trees_of};
ghost use Rattle.ere_tree.specs.View.{view};
ghost use Rattle.ere_match.specs.Begins.{NoneBefore, HasNewline, may_hold_newline, any_may_hold_newline};

use ere_tree::Ere;
use memchr::memrchr;
use tt_base::find_in;

/// Where the bytes stand first. Behind the slice's end where they don't stand in it.
fn first_place(slice: &[u8], bytes: &[u8]) -> usize
    requires { length slice.now < usize.MAX }
    ensures { NoneBefore slice.now (plain bytes.now) result }
{
    match find_in(slice, bytes, 0, slice.len()) {
        Some(place) => place,
        None => slice.len() + 1,
    }
}

/// Whether a match can hold a newline, as far as sets and plain text tell.
#[cycle(newlines)]
pub(crate) fn may_hold_newline(ere: &Ere) -> bool
    ensures { result ≡ may_hold_newline (view ere.now) }
{
    match ere {
        Ere::Empty | Ere::LineStart | Ere::LineEnd => false,
        Ere::Plain(run) => run.as_slice().contains(&b'\n'),
        Ere::Set(set) => set.has(b'\n'),
        Ere::Cat(all) => any_may_hold_newline(all.as_slice()),
        Ere::Alt(all) => any_may_hold_newline(all.as_slice()),
        Ere::Repeat { inner, .. } => may_hold_newline(inner),
        Ere::Group { inner, .. } => may_hold_newline(inner),
        Ere::Ref { .. } => true,
    }
}

/// The same of at least one of some expressions.
#[cycle(newlines)]
fn any_may_hold_newline(all: &[Ere]) -> bool
    ensures { result ≡ any_may_hold_newline (trees_of (map view all.now)) }
{
    for one in all {
        if may_hold_newline(one) {
            return true;
        }
    }
    false
}

/// The start of the line in which a place lies, or `begin` where that is behind it.
fn line_start(slice: &[u8], begin: usize, place: usize) -> usize
    requires { place ≤ length slice.now }
    ensures { (h : ℕ) → begin ≤ h → h < result → HasNewline slice.now h place }
{
    if place <= begin {
        return begin;
    }
    match memrchr(b'\n', &slice[begin..place]) {
        Some(newline) => begin + newline + 1,
        None => begin,
    }
}

/// A place of the slice before which no match begins. It lies behind the slice's end where plain text that is in every
/// match doesn't stand in the slice. Such text behind parts that hold no newline tells the line.
#[cycle(earliest)]
pub fn earliest(ere: &Ere, slice: &[u8]) -> usize
    requires { length slice.now < usize.MAX }
    ensures { NoneBefore slice.now (view ere.now) result }
{
    match ere {
        Ere::Plain(run) => first_place(slice, run.as_slice()),
        Ere::Cat(parts) => earliest_of_all(parts.as_slice(), slice),
        Ere::Group { inner, .. } => earliest(inner, slice),
        Ere::Empty | Ere::Set(_) | Ere::LineStart | Ere::LineEnd => 0,
        Ere::Alt(_) | Ere::Repeat { .. } | Ere::Ref { .. } => 0,
    }
}

/// The same of expressions one behind the other.
#[cycle(earliest)]
fn earliest_of_all(parts: &[Ere], slice: &[u8]) -> usize
    requires { length slice.now < usize.MAX }
    ensures { NoneBefore slice.now (cat (trees_of (map view parts.now))) result }
{
    let mut begin = 0;
    let mut in_line = true;
    for (index, part) in parts.iter().enumerate() {
        let place = earliest(part, slice);
        if place > slice.len() {
            return place;
        }
        if index == 0 {
            begin = place;
        } else if in_line {
            begin = line_start(slice, begin, place);
        }
        in_line = in_line && !may_hold_newline(part);
    }
    begin
}
