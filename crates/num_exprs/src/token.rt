//! An expression byte by byte: its tokens.
ghost use Rattle.std.specs.Prelude.{◌≡◌, ◌≤◌, ◌<◌, ◌+◌, IfOk, IfErr, length};
ghost use Rattle.std.specs.Str.Parse.{digits_value};
ghost use Rattle.num_exprs.specs.Token.{digits_from, literal_from, literal_of, op_before, op_of, operand_at, token, word_at};
ghost use Rattle.std.specs.List.{prefix_len};
ghost use Rattle.num_exprs.specs.Row.{is_in_row};
ghost use Rattle.num_exprs.specs.Place.{name_of, weight};
ghost use Rattle.num_exprs.specs.View.{found_view, token_view};

use crate::names::name_at;
use crate::row::{Row, begins_row, row_length};
use num_base::{Expr, Op};
use num_spell::{begins, behind, number_of};
use std::alloc::Global;
use tt_base::{Bytes, NoMemory};

/// A literal, a name or `@LINE`; `+` or `-`; an op that a `(` follows; parentheses and commas.
#[derive(Drop, Debug)]
pub(crate) enum Token {
    Value(Expr),
    Operator(Op),
    Named(Op),
    OpenParen,
    CloseParen,
    Comma,
}

impl Token {
    /// How much it counts against the limit.
    pub(crate) fn weight(&self) -> u32
        ensures { result ≡ weight (token_view self.now) }
    {
        match self {
            Token::Value(_) => 0,
            Token::Operator(_) => 1,
            Token::Named(_) => 1,
            Token::OpenParen => 1,
            Token::CloseParen => 0,
            Token::Comma => 0,
        }
    }

    /// The name that it uses.
    pub(crate) fn used_name(&self, alloc: Global) -> Result<Option<Bytes>, NoMemory>
        ensures { IfOk result (λ name. name ≡ name_of (token_view self.now)) }
    {
        match self {
            Token::Value(Expr::Name(name)) => {
                Ok(Some(Bytes::from_slice(alloc, name.as_slice())?))
            }
            Token::Value(Expr::Literal(_)) => Ok(None),
            Token::Value(Expr::Line) => Ok(None),
            Token::Value(Expr::Binary { .. }) => Ok(None),
            Token::Operator(_) => Ok(None),
            Token::Named(_) => Ok(None),
            Token::OpenParen => Ok(None),
            Token::CloseParen => Ok(None),
            Token::Comma => Ok(None),
        }
    }
}

/// The literal of these digits, with so many bytes in all.
fn literal_of(
    negative: bool,
    count: usize,
    digits: &[u8],
    base: u32,
) -> Result<(Token, usize), usize>
    requires { 1 ≤ base }
    ensures exact { found_view result ≡ literal_of negative count (digits_value base digits.now) }
    ensures length { IfOk result (λ found. found.1 ≡ count) }
    ensures place { IfErr result (λ behind. behind ≡ 0) }
{
    let Some(n) = number_of(digits, base) else {
        return Err(0);
    };
    match i128::try_from(n) {
        Ok(value) => {
            let value = if negative { -value } else { value };
            Ok((Token::Value(Expr::Literal(value)), count))
        }
        Err(_) => Err(0),
    }
}

/// The literal of this sign whose digits, in a row at the front of a text, begin behind so many bytes.
fn digits_from(
    negative: bool,
    base: u32,
    row: Row,
    at: usize,
    text: &[u8],
) -> Result<(Token, usize), usize>
    requires base { 1 ≤ base }
    requires small { at ≤ 3 }
    ensures exact { found_view result ≡ digits_from negative base row at text.now }
    ensures length { IfOk result (λ found. found.1 ≡ at + prefix_len (is_in_row row) text.now) }
    ensures place { IfErr result (λ behind. behind ≡ 0) }
{
    let count = row_length(text, row);
    literal_of(negative, at + count, text.split_at(count).0, base)
}

/// The literal of this sign whose digits, behind `0x` or not, begin behind so many bytes.
#[tactic(auto, using(crate::proofs::RowLemmas::row_begins))]
fn literal_from(negative: bool, at: usize, text: &[u8]) -> Result<(Token, usize), usize>
    requires { at ≤ 1 }
    ensures exact { found_view result ≡ literal_from negative at text.now }
    ensures some { IfOk result (λ found. 0 < found.1) }
    ensures within { IfOk result (λ found. found.1 ≤ at + length text.now) }
    ensures place { IfErr result (λ behind. behind ≤ at) }
{
    if text.starts_with(b"0x") && begins_row(behind(text, 2), Row::HexDigits) {
        digits_from(negative, 16, Row::HexDigits, at + 2, behind(text, 2))
    } else if begins_row(text, Row::Digits) {
        digits_from(negative, 10, Row::Digits, at, text)
    } else {
        Err(at)
    }
}

/// The op of this name.
fn op_of(name: &[u8]) -> Option<Op>
    ensures { result ≡ op_of name.now }
{
    if name == b"add".as_slice() {
        Some(Op::Add)
    } else if name == b"sub".as_slice() {
        Some(Op::Sub)
    } else if name == b"mul".as_slice() {
        Some(Op::Mul)
    } else if name == b"div".as_slice() {
        Some(Op::Div)
    } else if name == b"max".as_slice() {
        Some(Op::Max)
    } else if name == b"min".as_slice() {
        Some(Op::Min)
    } else {
        None
    }
}

/// The op that stands at the front of a text, where a name of this length does and a `(` follows.
fn op_before(count: usize, text: &[u8]) -> Option<Op>
    requires { count ≤ length text.now }
    ensures { result ≡ op_before count text.now }
{
    let (name, rest) = text.split_at(count);
    if begins(behind(rest, row_length(rest, Row::Blanks)), b'(') {
        op_of(name)
    } else {
        None
    }
}

/// The token of a name.
fn word_at(alloc: Global, text: &[u8]) -> Result<Result<(Token, usize), usize>, NoMemory>
    ensures exact { IfOk result (λ found. found_view found ≡ word_at text.now) }
    ensures some { IfOk result (λ found. IfOk found (λ word. 0 < word.1)) }
    ensures within { IfOk result (λ found. IfOk found (λ word. word.1 ≤ length text.now)) }
    ensures place { IfOk result (λ found. IfErr found (λ behind. behind ≤ length text.now)) }
{
    match name_at(text) {
        Ok(count) => match op_before(count, text) {
            Some(op) => Ok(Ok((Token::Named(op), count))),
            None => match Bytes::from_slice(alloc, text.split_at(count).0) {
                Ok(name) => Ok(Ok((Token::Value(Expr::Name(name)), count))),
                Err(_) => Err(NoMemory),
            },
        },
        Err(at) => Ok(Err(at)),
    }
}

/// A literal, `@LINE`, a name or an op at the front of a text.
fn operand_at(alloc: Global, text: &[u8]) -> Result<Result<(Token, usize), usize>, NoMemory>
    ensures exact { IfOk result (λ found. found_view found ≡ operand_at text.now) }
    ensures some { IfOk result (λ found. IfOk found (λ token. 0 < token.1)) }
    ensures within { IfOk result (λ found. IfOk found (λ token. token.1 ≤ length text.now)) }
    ensures place { IfOk result (λ found. IfErr found (λ stop. stop ≤ length text.now)) }
{
    if begins_row(text, Row::Digits) {
        Ok(literal_from(false, 0, text))
    } else if text.starts_with(b"@LINE") {
        Ok(Ok((Token::Value(Expr::Line), 5)))
    } else {
        word_at(alloc, text)
    }
}

/// The token at the front of a text, and its length; or the offset of the byte that can't be read on. A `-` begins a
/// literal where an operand is wanted.
#[tactic(auto, unfolding(crate::specs::Token::token))]
pub(crate) fn token_at(
    alloc: Global,
    wanted: bool,
    text: &[u8],
) -> Result<Result<(Token, usize), usize>, NoMemory>
    ensures exact { IfOk result (λ found. found_view found ≡ token wanted text.now) }
    ensures some { IfOk result (λ found. IfOk found (λ token. 0 < token.1)) }
    ensures within { IfOk result (λ found. IfOk found (λ token. token.1 ≤ length text.now)) }
    ensures place { IfOk result (λ found. IfErr found (λ behind. behind ≤ length text.now)) }
{
    if begins(text, b'(') {
        Ok(Ok((Token::OpenParen, 1)))
    } else if begins(text, b')') {
        Ok(Ok((Token::CloseParen, 1)))
    } else if begins(text, b',') {
        Ok(Ok((Token::Comma, 1)))
    } else if begins(text, b'+') {
        Ok(Ok((Token::Operator(Op::Add), 1)))
    } else if begins(text, b'-') {
        if wanted {
            Ok(literal_from(true, 1, behind(text, 1)))
        } else {
            Ok(Ok((Token::Operator(Op::Sub), 1)))
        }
    } else if wanted {
        operand_at(alloc, text)
    } else {
        Ok(Err(0))
    }
}
