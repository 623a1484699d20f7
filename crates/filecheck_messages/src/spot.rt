//! A place of a text that is told with its line.
ghost use Rattle.std.specs.Prelude.{◌≡◌, ◌≤◌, ◌+◌, ◌^◌, IfOk, length, min};
ghost use Rattle.tt_base.specs.Place.{place_at};
ghost use Rattle.filecheck_messages.specs.Spot.{behind, spot_at};

use crate::part::TextPart;
use std::alloc::Global;
use tt_base::{Bytes, NoMemory, Place, line_of, place_of};
use tt_outside::SharedBytes;

/// A place of a text, and its line.
#[derive(Drop, Debug)]
pub struct Spot {
    /// How the text is named.
    pub name: Bytes,
    pub place: Place,
    pub line: TextPart,
}

/// The spot of an offset. It counts the lines before it.
pub fn spot_at(alloc: Global, name: &[u8], text: &[u8], at: usize) -> Result<Spot, NoMemory>
    requires within { at ≤ length text.now }
    requires small { length text.now ≤ 2 ^ 30 }
    ensures { IfOk result (λ spot. spot ≡ spot_at name.now text.now at) }
{
    spot_of(alloc, name, text, at, place_of(text, at))
}

/// The spot of an offset whose place is known.
pub fn spot_of(
    alloc: Global,
    name: &[u8],
    text: &[u8],
    at: usize,
    place: Place,
) -> Result<Spot, NoMemory>
    requires placed { place ≡ place_at text.now at }
    requires within { at ≤ length text.now }
    requires small { length text.now ≤ 2 ^ 30 }
    ensures { IfOk result (λ spot. spot ≡ spot_at name.now text.now at) }
{
    let line = line_of(text, at);
    Ok(Spot {
        name: Bytes::from_slice(alloc, name)?,
        place,
        line: TextPart::copied(alloc, &text[line.from..line.to])?,
    })
}

/// The spot of an offset of a text that several hold, whose line isn't copied.
pub fn spot_in(alloc: Global, name: &[u8], text: &SharedBytes, at: usize) -> Result<Spot, NoMemory>
    requires within { at ≤ length text.now }
    requires small { length text.now ≤ 2 ^ 30 }
    ensures { IfOk result (λ spot. spot ≡ spot_at name.now text.now at) }
{
    let place = place_of(text.as_slice(), at);
    let line = line_of(text.as_slice(), at);
    Ok(Spot {
        name: Bytes::from_slice(alloc, name)?,
        place,
        line: TextPart::new(text.share()?, line.from, line.to),
    })
}

/// The spot so many bytes behind another one on its line.
pub fn behind(spot: Spot, count: usize) -> Spot
    ensures { result ≡ behind spot count }
{
    Spot {
        name: spot.name,
        place: Place {
            line: spot.place.line,
            col: spot.place.col.saturating_add(as_col(count)),
        },
        line: spot.line,
    }
}

/// A number, or the greatest that a place can tell.
pub fn as_col(count: usize) -> u32
    ensures { result ≡ min count 4294967295 }
{
    match u32::try_from(count) {
        Ok(count) => count,
        Err(_) => u32::MAX,
    }
}
