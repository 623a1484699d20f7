//! Places in a list of expressions that is being read.
ghost use Rattle.std.specs.Prelude.{◌≡◌, [], ◌∷◌, IfOk};
ghost use Rattle.std.specs.Option.{option_map};
ghost use Rattle.bool_exprs.specs.Expr.{expr_of};
ghost use Rattle.bool_exprs.specs.Expr as expr;
ghost use Rattle.bool_exprs.specs.Place.{closed, finished, has, star_at, summed, taken, wants};
ghost use Rattle.bool_exprs.specs.View.{IsOpened, IsPlace, StepsTo, exprs_of, frame_view, frames_view, opened_view, place_view};

use crate::expr::BoolExpr;
use crate::token::Token;
use std::alloc::Global;
use tt_base::{Items, NoMemory};

/// What is open: a `!`, a left side and its `&&`, a left side and its `||`, a `(`.
#[derive(Drop, Debug)]
pub(crate) enum Frame {
    Denied,
    And(BoolExpr),
    Or(BoolExpr),
    Paren,
}

/// What stands directly before a place.
#[derive(Drop, Debug)]
pub(crate) enum Last {
    /// An operand is wanted.
    Wanted,
    /// An expression.
    Read(BoolExpr),
    /// The `*` of an item.
    Starred,
}

/// A place in an item, with what is open round it, innermost last.
#[derive(Drop, Debug)]
pub(crate) struct Place {
    pub(crate) frames: Vec<Frame>,
    pub(crate) last: Last,
}

/// An expression with what is open round it.
#[derive(Drop, Debug)]
pub(crate) struct Opened {
    pub(crate) frames: Vec<Frame>,
    pub(crate) expr: BoolExpr,
}

fn negated(alloc: Global, inner: BoolExpr) -> Result<BoolExpr, NoMemory>
    ensures { IfOk result (λ made. expr_of made ≡ expr.negation (expr_of inner)) }
{
    match Box::new(alloc, inner) {
        Ok(inner) => Ok(BoolExpr::Not(inner)),
        Err(_) => Err(NoMemory),
    }
}

fn both(alloc: Global, left: BoolExpr, right: BoolExpr) -> Result<BoolExpr, NoMemory>
    ensures { IfOk result (λ made. expr_of made ≡ expr.both (expr_of left) (expr_of right)) }
{
    let Ok(left) = Box::new(alloc, left) else {
        return Err(NoMemory);
    };
    match Box::new(alloc, right) {
        Ok(right) => Ok(BoolExpr::And(left, right)),
        Err(_) => Err(NoMemory),
    }
}

fn either(alloc: Global, left: BoolExpr, right: BoolExpr) -> Result<BoolExpr, NoMemory>
    ensures { IfOk result (λ made. expr_of made ≡ expr.either (expr_of left) (expr_of right)) }
{
    let Ok(left) = Box::new(alloc, left) else {
        return Err(NoMemory);
    };
    match Box::new(alloc, right) {
        Ok(right) => Ok(BoolExpr::Or(left, right)),
        Err(_) => Err(NoMemory),
    }
}

/// The place with one more open.
fn wanting(mut frames: Vec<Frame>, frame: Frame) -> Result<Place, NoMemory>
    ensures { IfOk result (IsPlace (wants (frame_view frame ∷ frames_view frames.items))) }
{
    match frames.push(frame) {
        Ok(()) => Ok(Place {
            frames,
            last: Last::Wanted,
        }),
        Err(_) => Err(NoMemory),
    }
}

/// The place behind an expression, with this open behind what is open.
fn read_in(mut frames: Vec<Frame>, frame: Frame, expr: BoolExpr) -> Result<Place, NoMemory>
    ensures { IfOk result (IsPlace (has (frame_view frame ∷ frames_view frames.items) (expr_of expr))) }
{
    match frames.push(frame) {
        Ok(()) => Ok(Place {
            frames,
            last: Last::Read(expr),
        }),
        Err(_) => Err(NoMemory),
    }
}

/// The place behind an operand.
fn taken(alloc: Global, mut frames: Vec<Frame>, operand: BoolExpr) -> Result<Place, NoMemory>
    ensures { IfOk result (IsPlace (taken (frames_view frames.items) (expr_of operand))) }
{
    match frames.pop() {
        Some(Frame::Denied) => {
            let operand = negated(alloc, operand)?;
            taken(alloc, frames, operand)
        }
        Some(Frame::And(left)) => {
            let expr = both(alloc, left, operand)?;
            Ok(Place {
                frames,
                last: Last::Read(expr),
            })
        }
        Some(frame) => read_in(frames, frame, operand),
        None => Ok(Place {
            frames,
            last: Last::Read(operand),
        }),
    }
}

/// An expression behind which no `&&` stands.
fn summed(alloc: Global, mut frames: Vec<Frame>, expr: BoolExpr) -> Result<Opened, NoMemory>
    ensures { IfOk result (IsOpened (summed (frames_view frames.items) (expr_of expr))) }
{
    match frames.pop() {
        Some(Frame::Or(left)) => {
            let expr = either(alloc, left, expr)?;
            Ok(Opened { frames, expr })
        }
        Some(frame) => match frames.push(frame) {
            Ok(()) => Ok(Opened { frames, expr }),
            Err(_) => Err(NoMemory),
        },
        None => Ok(Opened { frames, expr }),
    }
}

/// The place behind a `)`, unless it closes nothing.
fn closed(alloc: Global, found: Opened) -> Result<Option<Place>, NoMemory>
    ensures { IfOk result (λ place. option_map place_view place ≡ closed (opened_view found)) }
{
    let Opened { mut frames, expr } = found;
    match frames.pop() {
        Some(Frame::Paren) => Ok(Some(taken(alloc, frames, expr)?)),
        _ => Ok(None),
    }
}

/// The place behind a `*`, unless something is open.
fn starred(frames: Vec<Frame>) -> Option<Place>
    ensures { option_map place_view result ≡ star_at (frames_view frames.items) }
{
    if frames.is_empty() {
        Some(Place {
            frames,
            last: Last::Starred,
        })
    } else {
        None
    }
}

/// The place behind a token where an operand is wanted, unless it can't be read on.
fn behind_wanted(alloc: Global, frames: Vec<Frame>, token: Token) -> Result<Option<Place>, NoMemory>
    ensures { IfOk result (StepsTo (wants (frames_view frames.items)) token) }
{
    match token {
        Token::Operand(expr) => Ok(Some(taken(alloc, frames, expr)?)),
        Token::Bang => Ok(Some(wanting(frames, Frame::Denied)?)),
        Token::OpenParen => Ok(Some(wanting(frames, Frame::Paren)?)),
        Token::Star => Ok(starred(frames)),
        Token::Both | Token::Either | Token::CloseParen | Token::Comma => Ok(None),
    }
}

/// The place behind a token that follows an expression, unless it can't be read on.
fn behind_read(
    alloc: Global,
    frames: Vec<Frame>,
    expr: BoolExpr,
    token: Token,
) -> Result<Option<Place>, NoMemory>
    ensures { IfOk result (StepsTo (has (frames_view frames.items) (expr_of expr)) token) }
{
    match token {
        Token::Both => Ok(Some(wanting(frames, Frame::And(expr))?)),
        Token::Either => {
            let found = summed(alloc, frames, expr)?;
            Ok(Some(wanting(found.frames, Frame::Or(found.expr))?))
        }
        Token::CloseParen => {
            let found = summed(alloc, frames, expr)?;
            closed(alloc, found)
        }
        Token::Operand(_) | Token::Bang | Token::OpenParen | Token::Comma | Token::Star => Ok(None),
    }
}

/// The list where an item ends at a place, unless it isn't over.
pub(crate) fn finished(
    alloc: Global,
    mut list: Items<BoolExpr>,
    place: Place,
) -> Result<Option<Items<BoolExpr>>, NoMemory>
    ensures { IfOk result (λ it. option_map exprs_of it ≡ finished (exprs_of list) (place_view place)) }
{
    let Place { frames, last } = place;
    match last {
        Last::Wanted => Ok(if frames.is_empty() { Some(list) } else { None }),
        Last::Read(expr) => {
            let found = summed(alloc, frames, expr)?;
            if !found.frames.is_empty() {
                return Ok(None);
            }
            list.push(found.expr)?;
            Ok(Some(list))
        }
        Last::Starred => {
            list.push(BoolExpr::Const(true))?;
            Ok(Some(list))
        }
    }
}

impl Place {
    /// The place where an item begins.
    pub(crate) fn beginning(alloc: Global) -> Place
        ensures { place_view result ≡ wants [] }
    {
        Place {
            frames: Vec::new(alloc),
            last: Last::Wanted,
        }
    }

    /// The place behind a token of an item, unless it can't be read on.
    pub(crate) fn step(self, alloc: Global, token: Token) -> Result<Option<Place>, NoMemory>
        ensures { IfOk result (StepsTo (place_view self) token) }
    {
        let Place { frames, last } = self;
        match last {
            Last::Wanted => behind_wanted(alloc, frames, token),
            Last::Read(expr) => behind_read(alloc, frames, expr, token),
            Last::Starred => Ok(None),
        }
    }
}
