//! Reading a list of expressions.
ghost use Rattle.std.specs.Prelude.{◌≡◌, All, false, ◌<◌, ◌≤◌, [], IfOk, IfSome, length};
ghost use Rattle.std.specs.Option.{option_map};
ghost use Rattle.bool_exprs.specs.Expr.{expr_of, refers};
ghost use Rattle.bool_exprs.specs.Place.{IsTurn, after, beginning, exprs_in};
ghost use Rattle.bool_exprs.specs.View.{exprs_of, reader_view, token_view, turn_view};

use crate::expr::BoolExpr;
use crate::front::{begins_blank, behind};
use crate::place::{Place, finished};
use crate::token::{Token, token_at};
use std::alloc::Global;
use tt_base::{Items, NoMemory};

/// How many operators and opening parentheses an expression may have.
pub const MAX_WEIGHT: u32 = 250;

/// What was read of a list: the items before the place, how many more tokens may count, and the place in an item.
#[derive(Drop, Debug)]
pub(crate) struct Reader {
    list: Items<BoolExpr>,
    left: u32,
    place: Place,
}

impl Reader {
    /// Where an item begins, behind these.
    fn beginning(alloc: Global, list: Items<BoolExpr>) -> Reader
        ensures { reader_view result ≡ beginning (exprs_of list) }
    {
        Reader {
            list,
            left: MAX_WEIGHT,
            place: Place::beginning(alloc),
        }
    }

    /// What was read behind a token, unless it can't be read on.
    fn after(self, alloc: Global, token: Token) -> Result<Option<Reader>, NoMemory>
        ensures { IfOk result (λ found. option_map reader_view found ≡ after (reader_view self) (token_view token)) }
    {
        let Reader { list, left, place } = self;
        if token.is_comma() {
            return Ok(match finished(alloc, list, place)? {
                Some(list) => Some(Reader::beginning(alloc, list)),
                None => None,
            });
        }
        let weight = token.weight();
        if weight > left {
            return Ok(None);
        }
        Ok(match place.step(alloc, token)? {
            Some(place) => Some(Reader {
                list,
                left: left - weight,
                place,
            }),
            None => None,
        })
    }

    /// What was read behind a blank or a token, and how many bytes it has, unless it can't be read on.
    fn turn(
        self,
        alloc: Global,
        xfail: bool,
        rest: &[u8],
    ) -> Result<Option<(Reader, usize)>, NoMemory>
        requires { 0 < length rest.now }
        ensures exact { IfOk result (λ found. IsTurn xfail (reader_view self) rest.now (option_map turn_view found)) }
        ensures some { IfOk result (λ found. IfSome found (λ next. 0 < next.1)) }
        ensures within { IfOk result (λ found. IfSome found (λ next. next.1 ≤ length rest.now)) }
    {
        if begins_blank(rest) {
            return Ok(Some((self, 1)));
        }
        match token_at(alloc, xfail, rest)? {
            None => Ok(None),
            Some((token, count)) => match self.after(alloc, token)? {
                None => Ok(None),
                Some(next) => Ok(Some((next, count))),
            },
        }
    }
}

/// The expressions of a list, unless an item is none.
fn read_items(alloc: Global, xfail: bool, text: &[u8]) -> Result<Option<Items<BoolExpr>>, NoMemory>
    ensures exact { IfOk result (λ found. option_map exprs_of found ≡ exprs_in xfail text.now) }
{
    let mut reader = Reader::beginning(alloc, Items::new(alloc));
    let mut done: usize = 0;
    while done < text.len() {
        match reader.turn(alloc, xfail, behind(text, done))? {
            None => return Ok(None),
            Some((next, count)) => {
                reader = next;
                done += count;
            }
        }
    }
    finished(alloc, reader.list, reader.place)
}

/// Reads expressions that commas part, unless an item is none. In an XFAIL list an item may be a `*`, which always
/// holds. None of them has references.
pub fn read_list(
    alloc: Global,
    xfail: bool,
    text: &[u8],
) -> Result<Option<Items<BoolExpr>>, NoMemory>
    ensures exact { IfOk result (λ found. option_map exprs_of found ≡ exprs_in xfail text.now) }
    ensures no_refs { IfOk result (λ found. IfSome found (All (λ e. refers (expr_of e) ≡ false))) }
{
    match read_items(alloc, xfail, text) {
        Ok(found) => Ok(found),
        Err(NoMemory) => Err(NoMemory),
    }
}
