//! The slow programs: each computes its definition the plain way, and the tests compare the fast ones with
//! it.
ghost use Rattle.std.specs.Prelude.{◌≡◌, ◌+◌, ◌≤◌, ◌^◌, length};
ghost use Rattle.tt_base.specs.Occurrence.{begins_with, first_from};
ghost use Rattle.tt_base.specs.Place.{place_at};

use tt_base::Place;

/// Whether a text begins with another.
fn plain_begins(text: &[u8], front: &[u8]) -> bool
    ensures { result ≡ begins_with text.now front.now }
{
    match (text, front) {
        (_, []) => true,
        ([], _) => false,
        ([a, ..], [b, ..]) => *a == *b && plain_begins(&text[1..], &front[1..]),
    }
}

/// Where the needle first stands in the rest of a text that begins at an offset.
#[tactic(auto, unfolding(tt_base::specs::Occurrence::first_from))]
pub fn plain_first(needle: &[u8], at: usize, text: &[u8]) -> Option<usize>
    requires { at + length text.now ≤ 2 ^ 30 }
    ensures { result ≡ first_from needle.now at text.now }
{
    if plain_begins(text, needle) {
        return Some(at);
    }
    match text {
        [] => None,
        [_, ..] => plain_first(needle, at + 1, &text[1..]),
    }
}

/// The place behind a text.
pub fn plain_place(text: &[u8]) -> Place
    requires { length text.now ≤ 2 ^ 30 }
    ensures { result ≡ place_at text.now (length text.now) }
{
    let mut place = Place { line: 1, col: 1 };
    for &byte in text {
        if byte == b'\n' {
            place.line += 1;
            place.col = 1;
        } else {
            place.col += 1;
        }
    }
    place
}
