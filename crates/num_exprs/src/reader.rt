//! Reading an expression.
ghost use Rattle.std.specs.Prelude.{◌≡◌, ◌≤◌, ◌<◌, ◌+◌, ◌^◌, ◌++◌, IfOk, OnOk, length};
ghost use Rattle.num_exprs.specs.Block.{found_in};
ghost use Rattle.num_exprs.specs.Place.{uses_from};
ghost use Rattle.num_exprs.specs.Place as places;
ghost use Rattle.num_exprs.specs.View.{found_of, place_view};

use crate::block::PlacedName;
use crate::place::{Last, Place};
use crate::row::{Row, begins_row};
use crate::token::token_at;
use num_base::Expr;
use num_spell::behind;
use std::alloc::Global;
use tt_base::{Bytes, Items, NoMemory};

/// How many operators, ops and opening parentheses an expression may have.
pub const MAX_WEIGHT: u32 = 250;

/// The names that an expression uses, up to its end or its fault, and the expression, or the offset of the first byte
/// that can't be read on.
#[derive(Drop, Debug)]
pub(crate) struct ExprReading {
    pub(crate) uses: Items<PlacedName>,
    pub(crate) outcome: Result<Expr, usize>,
}

/// Adds a name that is used at an offset.
fn note(uses: &mut Items<PlacedName>, at: usize, name: Option<Bytes>) -> Result<(), NoMemory>
    ensures { OnOk result (uses.new ≡ uses.old ++ uses_from at name) }
{
    match name {
        Some(name) => uses.push(PlacedName { at, name }),
        None => Ok(()),
    }
}

fn failed(uses: Items<PlacedName>, at: usize) -> ExprReading
    ensures { found_of result ≡ places.using uses (places.failed at) }
{
    ExprReading {
        uses,
        outcome: Err(at),
    }
}

/// What is read where the text ends at an offset.
fn finished(uses: Items<PlacedName>, at: usize, place: Place) -> ExprReading
    ensures { found_of result ≡ places.using uses (places.over at (places.whole (place_view place))) }
{
    match place.whole() {
        Some(expr) => ExprReading {
            uses,
            outcome: Ok(expr),
        },
        None => failed(uses, at),
    }
}

/// Reads a text that begins at an offset as an expression.
pub(crate) fn read_expr(alloc: Global, at: usize, text: &[u8]) -> Result<ExprReading, NoMemory>
    requires { at + length text.now < 2 ^ 64 }
    ensures { IfOk result (λ read. found_of read ≡ found_in at text.now) }
{
    let mut uses = Items::new(alloc);
    let mut left = MAX_WEIGHT;
    let mut place = Place::beginning(alloc);
    let mut done: usize = 0;
    while done < text.len() {
        let rest = behind(text, done);
        if begins_row(rest, Row::Blanks) {
            done += 1;
            continue;
        }
        match token_at(alloc, place.wants(), rest)? {
            Err(stop) => return Ok(failed(uses, at + done + stop)),
            Ok((token, count)) => {
                let weight = token.weight();
                let used = token.used_name(alloc)?;
                let Some(next) = place.step_within(alloc, left, token)? else {
                    return Ok(failed(uses, at + done));
                };
                note(&mut uses, at + done, used)?;
                left -= weight;
                place = next;
                done += count;
            }
        }
    }
    Ok(finished(uses, at + done, place))
}
