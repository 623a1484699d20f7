//! The names that patterns define or use.
ghost use Rattle.std.specs.Prelude.{◌≡◌, ◌++◌, ℕ, IfOk, List, OnOk};
ghost use Rattle.num_base.specs.Term.{term_of};
ghost use Rattle.num_exprs.specs.View.{num_view};
ghost use Rattle.check_program.specs.Names.{named_in, names_all, names_at, names_in, names_in_block, names_once};
ghost use Rattle.pattern_instance.specs.Views.{still_told};
ghost use Rattle.pattern_parse.specs.PieceView.{item_view, items_view};

use check_group::Check;
use num_base::Expr;
use num_exprs::NumBlock;
use pattern_instance::NameList;
use pattern_parse::Piece;
use std::alloc::Global;
use tt_base::{Bytes, Items, NoMemory};

/// Adds the names of an expression.
#[cycle(names)]
fn add_expr(alloc: Global, names: &mut NameList, expr: &Expr) -> Result<(), NoMemory>
    ensures { OnOk result ((rest : List (List ℕ)) →
        still_told names.new rest ≡ still_told names.old (named_in (term_of expr.now) ++ rest)) }
{
    match expr {
        Expr::Literal(_) => Ok(()),
        Expr::Line => Ok(()),
        Expr::Name(name) => names.add(alloc, name.as_slice()),
        Expr::Binary { left, right, .. } => {
            add_expr(alloc, names, left)?;
            add_expr(alloc, names, right)
        }
    }
}

/// Adds the names of a numeric block.
fn add_block(alloc: Global, names: &mut NameList, block: &NumBlock) -> Result<(), NoMemory>
    ensures { OnOk result ((rest : List (List ℕ)) →
        still_told names.new rest ≡ still_told names.old (names_in_block (num_view block.now) ++ rest)) }
{
    if let Some(name) = &block.defines {
        names.add(alloc, name.as_slice())?;
    }
    match &block.expr {
        Some(expr) => add_expr(alloc, names, expr),
        None => Ok(()),
    }
}

/// Adds the names of a piece.
fn add_piece(alloc: Global, names: &mut NameList, piece: &Piece) -> Result<(), NoMemory>
    ensures { OnOk result ((rest : List (List ℕ)) →
        still_told names.new rest ≡ still_told names.old (names_at (item_view piece.now) ++ rest)) }
{
    match piece {
        Piece::Plain(_) => Ok(()),
        Piece::Regex(_) => Ok(()),
        Piece::Define { name, .. } => names.add(alloc, name.as_slice()),
        Piece::Recall { name } => names.add(alloc, name.as_slice()),
        Piece::Num { block, .. } => add_block(alloc, names, block),
    }
}

/// Adds the names of a directive's pattern.
fn add_check(alloc: Global, names: &mut NameList, check: &Check) -> Result<(), NoMemory>
    ensures { OnOk result ((rest : List (List ℕ)) →
        still_told names.new rest ≡ still_told names.old (names_in (items_view check.now.pattern.pieces) ++ rest)) }
{
    for piece in check.pattern.pieces.as_slice() {
        add_piece(alloc, names, piece)?;
    }
    Ok(())
}

/// Adds the names of directives.
fn add_checks(alloc: Global, names: &mut NameList, checks: &[Check]) -> Result<(), NoMemory>
    ensures { OnOk result ((rest : List (List ℕ)) →
        still_told names.new rest ≡ still_told names.old (names_all checks.now ++ rest)) }
{
    for check in checks {
        add_check(alloc, names, check)?;
    }
    Ok(())
}

/// The names of directives and of those behind them, each once.
pub fn names_of(alloc: Global, checks: &[Check], always: &[Check]) -> Result<Items<Bytes>, NoMemory>
    ensures { IfOk result (λ names. names ≡ names_once (checks.now ++ always.now)) }
{
    let mut names = NameList::new(alloc);
    add_checks(alloc, &mut names, checks)?;
    add_checks(alloc, &mut names, always)?;
    Ok(names.into_items())
}
