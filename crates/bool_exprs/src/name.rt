//! Names of features.
ghost use Rattle.std.specs.Prelude.{◌≡◌, ◌≤◌, IfOk, IfSome, length};
ghost use Rattle.std.specs.Option.{option_map};
ghost use Rattle.bool_exprs.specs.Piece.{pieces_from};
ghost use Rattle.bool_exprs.specs.View.{pieces_view};

use crate::front::behind;
use crate::piece::{Front, Piece, front_of};
use std::alloc::Global;
use tt_base::{Items, NoMemory};

/// The pieces at the front of a text, and how many bytes they have, unless one of them is refused.
pub(crate) fn pieces_at(
    alloc: Global,
    text: &[u8],
) -> Result<Option<(Items<Piece>, usize)>, NoMemory>
    ensures exact { IfOk result (λ found. option_map pieces_view found ≡ pieces_from 0 text.now) }
    ensures within { IfOk result (λ found. IfSome found (λ name. name.1 ≤ length text.now)) }
{
    let mut pieces = Items::new(alloc);
    let mut done: usize = 0;
    while done < text.len() {
        match front_of(alloc, behind(text, done))? {
            Front::Nothing => return Ok(Some((pieces, done))),
            Front::Refused => return Ok(None),
            Front::Begins(piece, count) => {
                pieces.push(piece)?;
                done += count;
            }
        }
    }
    Ok(Some((pieces, done)))
}
