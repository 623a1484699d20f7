//! The parts of the expression that is sought.
ghost use Rattle.std.specs.Prelude.{◌≡◌, ◌+◌, ◌<◌, ◌≤◌, ◌^◌, ℕ, IfOk, List, OnOk, Ok, Some, None};
ghost use Rattle.ere_tree.specs.Shape.{greatest_number};
ghost use Rattle.ere_tree.specs.Tree.{group, plain};
ghost use Rattle.ere_tree.specs.View.{view};
ghost use Rattle.num_base.specs.Eval.{value_of};
ghost use Rattle.num_base.specs.Term.{term_of};
ghost use Rattle.num_spell.specs.Wild.{wild};
ghost use Rattle.num_exprs.specs.View.{num_view};
ghost use Rattle.pattern_parse.specs.Item.{Item};
ghost use Rattle.pattern_parse.specs.PieceView.{item_view};
ghost use Rattle.pattern_parse.specs.Search.{greatest_of};
ghost use Rattle.pattern_vars.specs.Vars.{number_of};
ghost use Rattle.pattern_instance.specs.declared.gift.Gift.TheVariants.{Text};
ghost use Rattle.pattern_instance.specs.Known.{known_in};
ghost use Rattle.pattern_instance.specs.Parts.{block_part, cased, in_group, part_of, recalled_in, regex_part, shown, spelled, valued};
ghost use Rattle.pattern_instance.specs.Views.{MakesPart, MayMakePart, gathered, part_view, whole};

use crate::gift::Gift;
use crate::groups::Groups;
use crate::known::Known;
use ere_tree::{ByteRun, Ere};
use num_base::{EvalFault, Expr, Format, Numbers, eval};
use num_exprs::NumBlock;
use num_spell::{print_value, wild};
use pattern_parse::Piece;
use pattern_vars::Vars;
use std::alloc::Global;
use tt_base::{Bytes, Items, NoMemory};

/// What a piece is: its part of the expression, how many groups that has, and what it gives.
#[derive(Drop)]
pub(crate) struct Part {
    pub(crate) ere: Ere,
    pub(crate) groups: u32,
    pub(crate) gift: Option<Gift>,
}

/// The parts that are made so far, what they give, how many groups they have, and the groups of texts.
#[derive(Drop)]
pub(crate) struct Made {
    pub(crate) trees: Vec<Ere>,
    pub(crate) gifts: Items<Gift>,
    pub(crate) count: u32,
    pub(crate) groups: Groups,
}

/// The expression with its letters in both cases, where `fold` says so.
fn cased(alloc: Global, ere: Ere, fold: bool) -> Result<Ere, NoMemory>
    ensures { IfOk result (λ made. view made ≡ cased fold (view ere)) }
{
    if !fold {
        return Ok(ere);
    }
    match ere.folded(alloc) {
        Ok(folded) => Ok(folded),
        Err(_) => Err(NoMemory),
    }
}

/// The expression of plain bytes.
fn plain(alloc: Global, bytes: &[u8], fold: bool) -> Result<Ere, NoMemory>
    ensures { IfOk result (λ made. view made ≡ cased fold (plain bytes.now)) }
{
    match Vec::from_slice(alloc, bytes) {
        Ok(owned) => cased(alloc, Ere::Plain(ByteRun::from_vec(owned)), fold),
        Err(_) => Err(NoMemory),
    }
}

/// An expression in a group of its own, behind so many groups.
#[tactic(auto, using(crate::proofs::GroupLemmas::groups_below))]
fn in_group(alloc: Global, ere: Ere, count: u32, gift: Option<Gift>) -> Result<Part, NoMemory>
    requires { greatest_number (view ere) + count + 1 < 2 ^ 31 }
    ensures { IfOk result (λ part. part_view part ≡ in_group count (view ere) gift) }
{
    let groups = 1 + ere.groups();
    let mut inner = ere;
    inner.shift(count + 1);
    let Ok(inner) = Box::new(alloc, inner) else {
        return Err(NoMemory);
    };
    Ok(Part {
        ere: Ere::Group {
            number: count + 1,
            inner,
        },
        groups,
        gift,
    })
}

/// The expression of a regular expression, behind so many groups.
fn regex_part(alloc: Global, ere: &Ere, count: u32) -> Result<Part, NoMemory>
    requires { greatest_number (view ere.now) + count < 2 ^ 31 }
    ensures { MakesPart result (regex_part count (view ere.now)) }
{
    let Ok(mut copied) = ere.copy(alloc) else {
        return Err(NoMemory);
    };
    copied.shift(count);
    Ok(Part {
        ere: copied,
        groups: ere.groups(),
        gift: None,
    })
}

/// The part of a text that is defined.
fn define_part(alloc: Global, name: &Bytes, ere: &Ere, count: u32) -> Result<Part, NoMemory>
    requires { greatest_number (view ere.now) + count + 1 < 2 ^ 31 }
    ensures { MakesPart result (in_group count (view ere.now) (Some (Text name.now count))) }
{
    let Ok(copied) = ere.copy(alloc) else {
        return Err(NoMemory);
    };
    let name = Bytes::from_slice(alloc, name.as_slice())?;
    in_group(
        alloc,
        copied,
        count,
        Some(Gift::Text { name, group: count }),
    )
}

/// What a recall stands for.
fn recalled(alloc: Global, groups: &Groups, known: &Known<'_>, name: &[u8]) -> Result<Ere, NoMemory>
    ensures { IfOk result (λ made. view made ≡ recalled_in (known_in known.now) groups.now name.now) }
{
    if let Some(number) = groups.get(name) {
        return Ok(Ere::Ref {
            number,
            fold: known.fold,
        });
    }
    match known.vars.text(name) {
        Some(text) => plain(alloc, text.as_slice(), known.fold),
        None => Ok(Ere::Empty),
    }
}

/// Puts the numbers of an expression, as far as they have values, under their names.
#[cycle(gather)]
fn gather(numbers: &mut Numbers, expr: &Expr, vars: &Vars) -> Result<(), NoMemory>
    ensures { OnOk result (numbers.new ≡ gathered (number_of vars.now) (term_of expr.now) numbers.old) }
{
    match expr {
        Expr::Literal(_) => Ok(()),
        Expr::Line => Ok(()),
        Expr::Name(name) => match vars.number(name.as_slice()) {
            Some(value) => numbers.put(name.as_slice(), value),
            None => Ok(()),
        },
        Expr::Binary { left, right, .. } => {
            gather(numbers, left, vars)?;
            gather(numbers, right, vars)
        }
    }
}

/// The value of an expression of a directive of this line, where variables have their values.
pub fn evaluated(
    alloc: Global,
    expr: &Expr,
    vars: &Vars,
    line: u32,
) -> Result<Result<i128, EvalFault>, NoMemory>
    ensures { IfOk result (λ value. value ≡ value_of (number_of vars.now) line (term_of expr.now)) }
{
    let mut numbers = Numbers::new(alloc);
    gather(&mut numbers, expr, vars)?;
    Ok(eval(expr, &numbers, line))
}

/// A copy of the name that a block defines.
fn copied(alloc: Global, name: &Option<Bytes>) -> Result<Option<Bytes>, NoMemory>
    ensures { IfOk result (λ copy. copy ≡ name.now) }
{
    match name {
        Some(name) => Ok(Some(Bytes::from_slice(alloc, name.as_slice())?)),
        None => Ok(None),
    }
}

/// The printed bytes of a value, which is given to the name that the block defines.
fn shown(
    alloc: Global,
    defines: Option<Bytes>,
    format: Format,
    value: i128,
    fold: bool,
) -> Result<Result<Part, EvalFault>, NoMemory>
    ensures { MayMakePart result (valued fold defines format (Ok value)) }
{
    let Some(text) = print_value(alloc, format, value)? else {
        return Ok(Err(EvalFault::Range));
    };
    Ok(Ok(Part {
        ere: plain(alloc, text.as_slice(), fold)?,
        groups: 0,
        gift: match defines {
            Some(name) => Some(Gift::Given { name, value }),
            None => None,
        },
    }))
}

/// The part of a numeric block that is spelled in this format, behind so many groups.
fn number_part(
    alloc: Global,
    known: &Known<'_>,
    block: &NumBlock,
    format: Format,
    count: u32,
) -> Result<Result<Part, EvalFault>, NoMemory>
    requires { count + 2 < 2 ^ 31 }
    ensures { MayMakePart result (block_part (known_in known.now) count (num_view block.now) format) }
{
    let defines = copied(alloc, &block.defines)?;
    match &block.expr {
        Some(expr) => match evaluated(alloc, expr, known.vars, known.line)? {
            Ok(value) => shown(alloc, defines, format, value, known.fold),
            Err(fault) => Ok(Err(fault)),
        },
        None => Ok(Ok(spelled(alloc, defines, format, count, known.fold)?)),
    }
}

/// All that a format spells, in a group of its own behind so many groups.
#[tactic(auto, using(crate::proofs::GroupLemmas::wild_has_one))]
fn spelled(
    alloc: Global,
    defines: Option<Bytes>,
    format: Format,
    count: u32,
    fold: bool,
) -> Result<Part, NoMemory>
    requires { count + 2 < 2 ^ 31 }
    ensures { MakesPart result (spelled fold count defines format) }
{
    let ere = cased(alloc, wild(alloc, format)?, fold)?;
    let gift = match defines {
        Some(name) => Some(Gift::Number {
            name,
            group: count,
            format,
        }),
        None => None,
    };
    in_group(alloc, ere, count, gift)
}

/// The part of a piece behind so many groups, where these texts are defined before it.
pub(crate) fn part_of(
    alloc: Global,
    known: &Known<'_>,
    piece: &Piece,
    count: u32,
    groups: &Groups,
) -> Result<Result<Part, EvalFault>, NoMemory>
    requires { count + (greatest_of (item_view piece.now) + 2) < 2 ^ 31 }
    ensures { MayMakePart result (part_of (known_in known.now) count groups.now (item_view piece.now)) }
{
    let ere = match piece {
        Piece::Plain(bytes) => plain(alloc, bytes.as_slice(), known.fold)?,
        Piece::Recall { name } => recalled(alloc, groups, known, name.as_slice())?,
        Piece::Regex(ere) => return Ok(Ok(regex_part(alloc, ere, count)?)),
        Piece::Define { name, ere } => return Ok(Ok(define_part(alloc, name, ere, count)?)),
        Piece::Num { block, format } => {
            return number_part(alloc, known, block, *format, count);
        }
    };
    Ok(Ok(Part {
        ere,
        groups: 0,
        gift: None,
    }))
}
