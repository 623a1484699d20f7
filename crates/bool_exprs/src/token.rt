//! The tokens of a list of expressions.
ghost use Rattle.std.specs.Prelude.{◌≡◌, ◌≤◌, ◌<◌, IfOk, IfSome, length};
ghost use Rattle.bool_exprs.specs.Piece.{pieces_from};
ghost use Rattle.bool_exprs.specs.Place.{is_comma, weight};
ghost use Rattle.bool_exprs.specs.Token.{name_token, token};
ghost use Rattle.bool_exprs.specs.View.{FindsToken, token_view};

use crate::expr::BoolExpr;
use crate::front::begins;
use crate::name::pieces_at;
use crate::piece::operand_of;
use std::alloc::Global;
use tt_base::NoMemory;

/// A name or a constant; `!`, `&&` and `||`; parentheses; a comma; a `*`.
#[derive(Drop, Debug)]
pub(crate) enum Token {
    Operand(BoolExpr),
    Bang,
    Both,
    Either,
    OpenParen,
    CloseParen,
    Comma,
    Star,
}

impl Token {
    /// How much it counts against the limit.
    pub(crate) fn weight(&self) -> u32
        ensures { result ≡ weight (token_view self.now) }
    {
        match self {
            Token::Bang => 1,
            Token::Both => 1,
            Token::Either => 1,
            Token::OpenParen => 1,
            Token::Operand(_) => 0,
            Token::CloseParen => 0,
            Token::Comma => 0,
            Token::Star => 0,
        }
    }

    pub(crate) fn is_comma(&self) -> bool
        ensures { result ≡ is_comma (token_view self.now) }
    {
        matches!(self, Token::Comma)
    }
}

/// The token of a name at the front of a text.
fn name_at(alloc: Global, text: &[u8]) -> Result<Option<(Token, usize)>, NoMemory>
    ensures exact { IfOk result (FindsToken (name_token (pieces_from 0 text.now))) }
    ensures some { IfOk result (λ found. IfSome found (λ token. 0 < token.1)) }
    ensures within { IfOk result (λ found. IfSome found (λ token. token.1 ≤ length text.now)) }
{
    match pieces_at(alloc, text)? {
        None => Ok(None),
        Some((pieces, count)) => {
            if count == 0 {
                return Ok(None);
            }
            Ok(Some((Token::Operand(operand_of(alloc, pieces)?), count)))
        }
    }
}

/// The token at the front of a text, and its length, unless a byte there can't be read. In an XFAIL list a `*` can.
#[tactic(auto, unfolding(crate::specs::Token::token))]
pub(crate) fn token_at(
    alloc: Global,
    xfail: bool,
    text: &[u8],
) -> Result<Option<(Token, usize)>, NoMemory>
    ensures exact { IfOk result (FindsToken (token xfail text.now)) }
    ensures some { IfOk result (λ found. IfSome found (λ token. 0 < token.1)) }
    ensures within { IfOk result (λ found. IfSome found (λ token. token.1 ≤ length text.now)) }
{
    if begins(text, b'!') {
        Ok(Some((Token::Bang, 1)))
    } else if begins(text, b'(') {
        Ok(Some((Token::OpenParen, 1)))
    } else if begins(text, b')') {
        Ok(Some((Token::CloseParen, 1)))
    } else if begins(text, b',') {
        Ok(Some((Token::Comma, 1)))
    } else if text.starts_with(b"&&") {
        Ok(Some((Token::Both, 2)))
    } else if text.starts_with(b"||") {
        Ok(Some((Token::Either, 2)))
    } else if xfail && begins(text, b'*') {
        Ok(Some((Token::Star, 1)))
    } else {
        name_at(alloc, text)
    }
}
