//! Lists of places, each once.
ghost use Rattle.std.specs.Prelude.{◌≡◌, ℕ, ◌↔◌, IsTrue, OnOk, take, length};
ghost use Rattle.std.specs.List.{Contains, All};
ghost use Rattle.ere_places.specs.Places.{AreBoth};
ghost use Rattle.ere_places.specs.Seen.{is_beyond, is_held};

use crate::seen::Seen;
use crate::window::Direction;
use std::alloc::AllocError;

/// The first of two places in the direction.
fn nearer(direction: Direction, one: usize, other: usize) -> usize
    ensures one { (p : ℕ) → IsTrue (is_beyond direction one p) → IsTrue (is_beyond direction result p) }
    ensures other { IsTrue (is_beyond direction result other) }
{
    match direction {
        Direction::Ahead => one.min(other),
        Direction::Back => one.max(other),
    }
}

/// The first of some places in the direction.
pub fn nearest(direction: Direction, places: &[usize]) -> usize
    ensures { All (λ p. IsTrue (is_beyond direction result p)) places.now }
{
    let mut near = match direction {
        Direction::Ahead => usize::MAX,
        Direction::Back => 0,
    };
    for place in places {
        near = nearer(direction, near, *place);
    }
    near
}

/// Adds the places that the list doesn't have yet. The set has those of the list.
pub fn put_new(found: &[usize], seen: &mut Seen, list: &mut Vec<usize>) -> Result<(), AllocError>
    requires same { (q : ℕ) → IsTrue (is_held seen.old q) ↔ Contains list.old.items q }
    requires beyond { All (λ q. IsTrue (is_beyond seen.old.direction seen.old.base q)) found.now }
    ensures same { OnOk result ((q : ℕ) → IsTrue (is_held seen.new q) ↔ Contains list.new.items q) }
    ensures all { OnOk result (AreBoth list.old.items found.now list.new.items) }
    ensures front { OnOk result (take (length list.old.items) list.new.items ≡ list.old.items) }
    ensures base { OnOk result (seen.new.base ≡ seen.old.base) }
    ensures direction { OnOk result (seen.new.direction ≡ seen.old.direction) }
{
    for place in found {
        let new = seen.put(*place)?;
        if new {
            list.push(*place)?;
        }
    }
    Ok(())
}
