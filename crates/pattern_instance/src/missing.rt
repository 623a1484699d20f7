//! The names that a pattern uses and that have no value.
ghost use Rattle.std.specs.Prelude.{◌≡◌, false, IfOk, OnOk};
ghost use Rattle.num_base.specs.Term.{term_of};
ghost use Rattle.pattern_instance.specs.Known.{known_in};
ghost use Rattle.pattern_instance.specs.Missing.{missing, uses_names};
ghost use Rattle.pattern_instance.specs.Views.{Tells, TellsRecall, ToldBy, lacking_of};
ghost use Rattle.pattern_parse.specs.PieceView.{items_view};

use crate::groups::Groups;
use crate::known::Known;
use crate::name_list::NameList;
use num_base::Expr;
use pattern_parse::Piece;
use pattern_vars::Vars;
use std::alloc::Global;
use tt_base::{Bytes, Items, NoMemory};

/// Tells the names of an expression that have no number.
#[cycle(names)]
fn tell_numbers(
    alloc: Global,
    missing: &mut NameList,
    expr: &Expr,
    vars: &Vars,
) -> Result<(), NoMemory>
    ensures { OnOk result (ToldBy missing.old missing.new (lacking_of vars.now (term_of expr.now))) }
{
    match expr {
        Expr::Literal(_) => Ok(()),
        Expr::Line => Ok(()),
        Expr::Name(name) => match vars.number(name.as_slice()) {
            Some(_) => Ok(()),
            None => missing.add(alloc, name.as_slice()),
        },
        Expr::Binary { left, right, .. } => {
            tell_numbers(alloc, missing, left, vars)?;
            tell_numbers(alloc, missing, right, vars)
        }
    }
}

/// Tells a text that has no value, where these are defined before it.
fn tell_text(
    alloc: Global,
    missing: &mut NameList,
    defined: &Groups,
    name: &Bytes,
    known: &Known<'_>,
) -> Result<(), NoMemory>
    ensures { OnOk result (TellsRecall known.now name.now defined.now missing.old missing.new) }
{
    if defined.get(name.as_slice()).is_some() || known.vars.text(name.as_slice()).is_some() {
        return Ok(());
    }
    missing.add(alloc, name.as_slice())
}

/// Tells the names of a piece that have no value, where these texts are defined before it.
fn tell_piece(
    alloc: Global,
    missing: &mut NameList,
    defined: &mut Groups,
    piece: &Piece,
    known: &Known<'_>,
) -> Result<(), NoMemory>
    ensures { OnOk result (Tells known.now piece.now defined.old defined.new missing.old missing.new) }
{
    match piece {
        Piece::Plain(_) => Ok(()),
        Piece::Regex(_) => Ok(()),
        Piece::Define { name, .. } => defined.put(name.as_slice(), 0),
        Piece::Recall { name } => tell_text(alloc, missing, defined, name, known),
        Piece::Num { block, .. } => match &block.expr {
            Some(expr) => tell_numbers(alloc, missing, expr, known.vars),
            None => Ok(()),
        },
    }
}

/// Whether one of the pieces uses names.
pub(crate) fn uses_names(pieces: &[Piece]) -> bool
    ensures { result ≡ uses_names (items_view pieces.now) }
{
    for piece in pieces {
        match piece {
            Piece::Recall { .. } => return true,
            Piece::Num { block, .. } => {
                if block.expr.is_some() {
                    return true;
                }
            }
            Piece::Plain(_) => {}
            Piece::Regex(_) => {}
            Piece::Define { .. } => {}
        }
    }
    false
}

/// The names that pieces use and that have no value, each once in order of first use. `uses` tells whether they use names.
pub(crate) fn missing_names(
    alloc: Global,
    known: &Known<'_>,
    pieces: &[Piece],
    uses: bool,
) -> Result<Items<Bytes>, NoMemory>
    requires { uses ≡ false → uses_names (items_view pieces.now) ≡ false }
    ensures { IfOk result (λ names. names ≡ missing (known_in known.now) (items_view pieces.now)) }
{
    let mut missing = NameList::new(alloc);
    if !uses {
        return Ok(missing.into_items());
    }
    let mut defined = Groups::new(alloc);
    for piece in pieces {
        tell_piece(alloc, &mut missing, &mut defined, piece, known)?;
    }
    Ok(missing.into_items())
}
