//! Patterns whose pieces are all text once variables have their values.
ghost use Rattle.std.specs.Prelude.{IfOk, IfSome};
ghost use Rattle.num_exprs.specs.View.{num_view};
ghost use Rattle.pattern_parse.specs.PieceView.{item_view, items_view};
ghost use Rattle.pattern_scan.specs.Stored.{AddsText, IsBlockText, IsStored, MayBeText, known_at};

use crate::ready::is_expressed;
use num_base::Format;
use num_exprs::NumBlock;
use num_spell::print_value;
use pattern_instance::evaluated;
use pattern_parse::{Frame, Pattern, Piece};
use pattern_vars::Vars;
use std::alloc::Global;
use tt_base::{Bytes, NoMemory};

/// For how many bytes of a text there is room at first.
const FIRST_BYTES: usize = 64;

/// The bytes of a number that defines no name, where it has a value that its format prints.
fn number_text(
    alloc: Global,
    block: &NumBlock,
    format: Format,
    vars: &Vars,
    line: u32,
) -> Result<Option<Bytes>, NoMemory>
    ensures { IfOk result (IsBlockText (known_at vars.now line) (num_view block.now) format) }
{
    let (None, Some(expr)) = (&block.defines, &block.expr) else {
        return Ok(None);
    };
    match evaluated(alloc, expr, vars, line)? {
        Ok(value) => print_value(alloc, format, value),
        Err(_) => Ok(None),
    }
}

/// Adds the bytes of a piece, if it is text.
fn add_piece(
    alloc: Global,
    text: &mut Bytes,
    piece: &Piece,
    vars: &Vars,
    line: u32,
) -> Result<bool, NoMemory>
    ensures { IfOk result (AddsText (known_at vars.now line) (item_view piece.now) text.old text.new) }
{
    match piece {
        Piece::Plain(run) => text.append(run.as_slice())?,
        Piece::Recall { name } => match vars.text(name.as_slice()) {
            Some(run) => text.append(run.as_slice())?,
            None => return Ok(false),
        },
        Piece::Num { block, format } => match number_text(alloc, block, *format, vars, line)? {
            Some(run) => text.append(run.as_slice())?,
            None => return Ok(false),
        },
        Piece::Regex(_) => return Ok(false),
        Piece::Define { .. } => return Ok(false),
    }
    Ok(true)
}

/// The bytes of pieces that are all text.
fn pieces_text(
    alloc: Global,
    pieces: &[Piece],
    vars: &Vars,
    line: u32,
) -> Result<Option<Bytes>, NoMemory>
    ensures { IfOk result (MayBeText (known_at vars.now line) (items_view pieces.now)) }
{
    let mut text = Bytes::with_capacity(alloc, FIRST_BYTES)?;
    for piece in pieces {
        if !add_piece(alloc, &mut text, piece, vars, line)? {
            return Ok(None);
        }
    }
    Ok(Some(text))
}

/// The bytes that the pattern of a directive of this line stands for where its pieces are all text.
pub(crate) fn stored_text(
    alloc: Global,
    pattern: &Pattern,
    vars: &Vars,
    line: u32,
) -> Result<Option<Bytes>, NoMemory>
    ensures { IfOk result (λ told. IfSome told (IsStored pattern.now vars.now line)) }
{
    if pattern.fold || is_expressed(pattern.pieces.as_slice()) {
        return Ok(None);
    }
    match pattern.frame {
        Frame::Open => pieces_text(alloc, pattern.pieces.as_slice(), vars, line),
        Frame::Spaced | Frame::Tight => Ok(None),
    }
}
