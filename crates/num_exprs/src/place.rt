//! Places in an expression that is being read.
ghost use Rattle.std.specs.Prelude.{◌≡◌, [], ◌∷◌, IfOk};
ghost use Rattle.std.specs.Option.{option_map};
ghost use Rattle.num_base.specs.Term.{term_of};
ghost use Rattle.num_base.specs.Term as term;
ghost use Rattle.num_exprs.specs.Place.{has, is_wanted, step, step_within, taken, wants, whole};
ghost use Rattle.num_exprs.specs.Token.{close_paren, comma};
ghost use Rattle.num_exprs.specs.View.{ComesTo, MayComeTo, frame_view, frames_view, place_view, token_view};

use crate::token::Token;
use num_base::{Expr, Op};
use std::alloc::Global;
use tt_base::NoMemory;

/// What is open: a left side and its operator, a `(`, an op before its comma, an op behind it.
#[derive(Drop, Debug)]
pub(crate) enum Frame {
    Behind(Expr, Op),
    Paren,
    First(Op),
    Second(Op, Expr),
}

/// What stands directly before a place.
#[derive(Drop, Debug)]
pub(crate) enum Last {
    /// An operand is wanted.
    Wanted,
    /// An op, whose `(` is wanted.
    Called(Op),
    /// An expression.
    Read(Expr),
}

/// A place, with what is open round it, innermost last.
#[derive(Drop, Debug)]
pub(crate) struct Place {
    pub(crate) frames: Vec<Frame>,
    pub(crate) last: Last,
}

fn binary(alloc: Global, op: Op, left: Expr, right: Expr) -> Result<Expr, NoMemory>
    ensures { IfOk result (λ expr. term_of expr ≡ term.binary op (term_of left) (term_of right)) }
{
    let Ok(left) = Box::new(alloc, left) else {
        return Err(NoMemory);
    };
    let Ok(right) = Box::new(alloc, right) else {
        return Err(NoMemory);
    };
    Ok(Expr::Binary { op, left, right })
}

/// The place with one more open.
fn opened(mut frames: Vec<Frame>, frame: Frame) -> Result<Place, NoMemory>
    ensures { ComesTo result (wants (frame_view frame ∷ frames_view frames.items)) }
{
    match frames.push(frame) {
        Ok(()) => Ok(Place {
            frames,
            last: Last::Wanted,
        }),
        Err(_) => Err(NoMemory),
    }
}

/// The place behind an operand.
fn taken(alloc: Global, mut frames: Vec<Frame>, expr: Expr) -> Result<Place, NoMemory>
    ensures { ComesTo result (taken (frames_view frames.items) (term_of expr)) }
{
    match frames.pop() {
        Some(Frame::Behind(left, op)) => {
            let expr = binary(alloc, op, left, expr)?;
            Ok(Place {
                frames,
                last: Last::Read(expr),
            })
        }
        Some(frame) => match frames.push(frame) {
            Ok(()) => Ok(Place {
                frames,
                last: Last::Read(expr),
            }),
            Err(_) => Err(NoMemory),
        },
        None => Ok(Place {
            frames,
            last: Last::Read(expr),
        }),
    }
}

/// The place behind a `)`, unless nothing is open that it closes.
fn closed(alloc: Global, mut frames: Vec<Frame>, expr: Expr) -> Result<Option<Place>, NoMemory>
    ensures { MayComeTo result (step (has (frames_view frames.items) (term_of expr)) close_paren) }
{
    match frames.pop() {
        Some(Frame::Paren) => Ok(Some(taken(alloc, frames, expr)?)),
        Some(Frame::Second(op, left)) => {
            let expr = binary(alloc, op, left, expr)?;
            Ok(Some(taken(alloc, frames, expr)?))
        }
        _ => Ok(None),
    }
}

/// The place behind a comma, unless no op is open before its own.
fn parted(mut frames: Vec<Frame>, expr: Expr) -> Result<Option<Place>, NoMemory>
    ensures { MayComeTo result (step (has (frames_view frames.items) (term_of expr)) comma) }
{
    match frames.pop() {
        Some(Frame::First(op)) => Ok(Some(opened(frames, Frame::Second(op, expr))?)),
        _ => Ok(None),
    }
}

impl Place {
    /// The place where a text begins.
    pub(crate) fn beginning(alloc: Global) -> Place
        ensures { place_view result ≡ wants [] }
    {
        Place {
            frames: Vec::new(alloc),
            last: Last::Wanted,
        }
    }

    /// Whether an operand is wanted.
    pub(crate) fn wants(&self) -> bool
        ensures { result ≡ is_wanted (place_view self.now) }
    {
        match &self.last {
            Last::Wanted => true,
            Last::Called(_) => false,
            Last::Read(_) => false,
        }
    }

    /// The place behind a token, unless it can't be read on.
    fn step(self, alloc: Global, token: Token) -> Result<Option<Place>, NoMemory>
        ensures { MayComeTo result (step (place_view self) (token_view token)) }
    {
        let Place { frames, last } = self;
        match (last, token) {
            (Last::Wanted, Token::Value(expr)) => Ok(Some(taken(alloc, frames, expr)?)),
            (Last::Wanted, Token::OpenParen) => Ok(Some(opened(frames, Frame::Paren)?)),
            (Last::Wanted, Token::Named(op)) => Ok(Some(Place {
                frames,
                last: Last::Called(op),
            })),
            (Last::Called(op), Token::OpenParen) => Ok(Some(opened(frames, Frame::First(op))?)),
            (Last::Read(expr), Token::Operator(op)) => {
                Ok(Some(opened(frames, Frame::Behind(expr, op))?))
            }
            (Last::Read(expr), Token::CloseParen) => closed(alloc, frames, expr),
            (Last::Read(expr), Token::Comma) => parted(frames, expr),
            _ => Ok(None),
        }
    }

    /// The same, where so many tokens may still count.
    pub(crate) fn step_within(
        self,
        alloc: Global,
        left: u32,
        token: Token,
    ) -> Result<Option<Place>, NoMemory>
        ensures { MayComeTo result (step_within left (place_view self) (token_view token)) }
    {
        if token.weight() <= left {
            self.step(alloc, token)
        } else {
            Ok(None)
        }
    }

    /// The expression, where nothing is open and one is there.
    pub(crate) fn whole(self) -> Option<Expr>
        ensures { option_map term_of result ≡ whole (place_view self) }
    {
        let Place { frames, last } = self;
        if !frames.is_empty() {
            return None;
        }
        match last {
            Last::Wanted => None,
            Last::Called(_) => None,
            Last::Read(expr) => Some(expr),
        }
    }
}
