//! Pieces of names.
ghost use Rattle.std.specs.Prelude.{◌≡◌, ◌≤◌, IfOk, length, map};
ghost use Rattle.std.specs.Option.{option_map};
ghost use Rattle.ere_tree.specs.View.{view};
ghost use Rattle.bool_exprs.specs.Expr.{expr_of};
ghost use Rattle.bool_exprs.specs.Piece.{bytes_at, front, match_of, name_end, operand_of, regex_at, regex_end, regex_of, tree_of, word_of};
ghost use Rattle.bool_exprs.specs.View.{FrontWithin, front_view, piece_view};

use crate::expr::BoolExpr;
use crate::front::name_length;
use ere_tree::{ByteRun, Ere, EreFail, EreList, parse};
use std::alloc::Global;
use tt_base::{Bytes, Items, NoMemory, find_in};

/// Bytes that stand for themselves, or an expression in `{{ }}`.
#[derive(Drop, Debug)]
pub(crate) enum Piece {
    Bytes(Bytes),
    Regex(Ere),
}

/// What begins at the front of a text: no piece, one that is refused, or one of so many bytes.
#[derive(Drop, Debug)]
pub(crate) enum Front {
    Nothing,
    Refused,
    Begins(Piece, usize),
}

/// The expression of a text, unless it is refused or has references.
fn regex_of(alloc: Global, text: &[u8]) -> Result<Option<Ere>, NoMemory>
    ensures { IfOk result (λ found. option_map view found ≡ regex_of text.now) }
{
    match parse(alloc, text, false) {
        Ok(ere) => {
            if ere.has_refs() {
                Ok(None)
            } else {
                Ok(Some(ere))
            }
        }
        Err(EreFail::Bad(_)) => Ok(None),
        Err(EreFail::NoMemory) => Err(NoMemory),
    }
}

/// The piece that begins with a `{{`.
fn regex_at(alloc: Global, text: &[u8]) -> Result<Front, NoMemory>
    requires { 2 ≤ length text.now }
    ensures exact { IfOk result (λ found. front_view found ≡ regex_at text.now (regex_end text.now)) }
    ensures within { IfOk result (FrontWithin (length text.now)) }
{
    let Some(end) = find_in(text, b"}}", 2, text.len()) else {
        return Ok(Front::Refused);
    };
    match regex_of(alloc, &text[2..end])? {
        Some(ere) => Ok(Front::Begins(Piece::Regex(ere), end + 2)),
        None => Ok(Front::Refused),
    }
}

/// The bytes of a name at the front of a text.
fn bytes_at(alloc: Global, text: &[u8]) -> Result<Front, NoMemory>
    ensures exact { IfOk result (λ found. front_view found ≡ bytes_at text.now (name_end text.now)) }
    ensures within { IfOk result (FrontWithin (length text.now)) }
{
    let count = name_length(text);
    if count == 0 {
        return Ok(Front::Nothing);
    }
    let word = Bytes::from_slice(alloc, text.split_at(count).0)?;
    Ok(Front::Begins(Piece::Bytes(word), count))
}

/// What begins at the front of a text.
#[tactic(auto, unfolding(crate::specs::Piece::front))]
pub(crate) fn front_of(alloc: Global, text: &[u8]) -> Result<Front, NoMemory>
    ensures exact { IfOk result (λ found. front_view found ≡ front text.now) }
    ensures within { IfOk result (FrontWithin (length text.now)) }
{
    if text.starts_with(b"{{") {
        regex_at(alloc, text)
    } else {
        bytes_at(alloc, text)
    }
}

/// What a name of plain bytes says.
fn word_of(word: Bytes) -> BoolExpr
    ensures { expr_of result ≡ word_of word }
{
    if word.as_slice() == b"true".as_slice() {
        BoolExpr::Const(true)
    } else if word.as_slice() == b"false".as_slice() {
        BoolExpr::Const(false)
    } else {
        BoolExpr::Name(word)
    }
}

impl Piece {
    /// The piece as a regular expression.
    fn into_ere(self) -> Ere
        ensures { view result ≡ tree_of (piece_view self) }
    {
        match self {
            Piece::Bytes(word) => Ere::Plain(ByteRun::from_vec(word.into_vec())),
            Piece::Regex(ere) => ere,
        }
    }
}

/// The pieces as one regular expression.
fn match_of(alloc: Global, pieces: Vec<Piece>) -> Result<BoolExpr, NoMemory>
    ensures { IfOk result (λ made. expr_of made ≡ match_of (map piece_view pieces.items)) }
{
    let mut parts = Vec::new(alloc);
    for piece in pieces {
        if parts.push(piece.into_ere()).is_err() {
            return Err(NoMemory);
        }
    }
    Ok(BoolExpr::Match(Ere::Cat(EreList::from_vec(parts))))
}

/// What the pieces of a name say.
pub(crate) fn operand_of(alloc: Global, pieces: Items<Piece>) -> Result<BoolExpr, NoMemory>
    ensures { IfOk result (λ made. expr_of made ≡ operand_of (map piece_view pieces)) }
{
    let mut pieces = pieces.into_vec();
    match pieces.pop() {
        Some(Piece::Bytes(word)) if pieces.is_empty() => Ok(word_of(word)),
        Some(piece) => match pieces.push(piece) {
            Ok(()) => match_of(alloc, pieces),
            Err(_) => Err(NoMemory),
        },
        None => match_of(alloc, pieces),
    }
}
