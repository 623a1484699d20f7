//! The instance of a pattern.
ghost use Rattle.std.specs.Prelude.{◌≡◌, false, ◌+◌, ◌<◌, ◌≤◌, ◌^◌, ◌++◌, ◌∷◌, [], IfOk, OnOk, map};
ghost use Rattle.std.specs.List.{cons_option, sum_by};
ghost use Rattle.ere_tree.specs.View.{view};
ghost use Rattle.pattern_parse.specs.PieceView.{item_view, items_view};
ghost use Rattle.pattern_parse.specs.Search.{IsSearchable, greatest_of};
ghost use Rattle.pattern_instance.specs.Instance.{before, behind, spaces};
ghost use Rattle.pattern_instance.specs.Known.{known_in};
ghost use Rattle.pattern_instance.specs.Missing.{uses_names};
ghost use Rattle.pattern_instance.specs.Views.{AddsPiece, HasPart, MayMakeAll, ServeBehind, finished, instance_by, instance_view, most_groups, part_view, whole};
ghost use Rattle.num_base.specs.declared.evaluation.EvalFault.{EvalFault};

use crate::gift::Gift;
use crate::groups::Groups;
use crate::known::Known;
use crate::missing::{missing_names, uses_names};
use crate::part::{Made, Part, part_of};
use ere_tree::{ByteRun, Ere, EreList};
use num_base::EvalFault;
use pattern_parse::{Frame, Pattern, Piece};
use pattern_vars::Vars;
use std::alloc::Global;
use tt_base::{Bytes, Items, NoMemory};

/// What a pattern stands for where variables have their values.
#[derive(Drop)]
pub enum Instance {
    /// The names that have no value, each once in order of first use.
    Undefined(Items<Bytes>),
    /// The first fault from the left.
    Faulty(EvalFault),
    /// The expression that is sought, and what a match gives, in order of the pieces.
    Made { ere: Ere, gifts: Items<Gift> },
}

/// Any number of spaces.
fn spaces(alloc: Global) -> Result<Ere, NoMemory>
    ensures { IfOk result (λ ere. view ere ≡ spaces) }
{
    let Ok(space) = Vec::from_slice(alloc, b" ".as_slice()) else {
        return Err(NoMemory);
    };
    let Ok(inner) = Box::new(alloc, Ere::Plain(ByteRun::from_vec(space))) else {
        return Err(NoMemory);
    };
    Ok(Ere::Repeat {
        inner,
        least: 0,
        most: None,
    })
}

/// Adds one expression behind the others.
fn push(trees: &mut Vec<Ere>, ere: Ere) -> Result<(), NoMemory>
    ensures { OnOk result (map view trees.new.items ≡ map view trees.old.items ++ view ere ∷ []) }
{
    match trees.push(ere) {
        Ok(()) => Ok(()),
        Err(_) => Err(NoMemory),
    }
}

/// What stands before the pieces.
fn before(alloc: Global, frame: Frame) -> Result<Vec<Ere>, NoMemory>
    ensures { IfOk result (λ trees. map view trees.items ≡ before frame) }
{
    let mut trees = Vec::new(alloc);
    match frame {
        Frame::Open => {}
        Frame::Tight => push(&mut trees, Ere::LineStart)?,
        Frame::Spaced => {
            push(&mut trees, Ere::LineStart)?;
            push(&mut trees, spaces(alloc)?)?;
        }
    }
    Ok(trees)
}

/// Adds what stands behind the pieces.
fn add_behind(alloc: Global, trees: &mut Vec<Ere>, frame: Frame) -> Result<(), NoMemory>
    ensures { OnOk result (map view trees.new.items ≡ map view trees.old.items ++ behind frame) }
{
    match frame {
        Frame::Open => Ok(()),
        Frame::Tight => push(trees, Ere::LineEnd),
        Frame::Spaced => {
            push(trees, spaces(alloc)?)?;
            push(trees, Ere::LineEnd)
        }
    }
}

/// Adds what a part gives, if it gives something.
fn push_gift(gifts: &mut Items<Gift>, gift: Option<Gift>) -> Result<(), NoMemory>
    ensures { OnOk result (gifts.new ≡ gifts.old ++ cons_option gift []) }
{
    match gift {
        Some(gift) => gifts.push(gift),
        None => Ok(()),
    }
}

/// Adds a part with what it gives.
fn add_part(made: &mut Made, part: Part) -> Result<(), NoMemory>
    requires { made.old.count + part.groups < 2 ^ 31 }
    ensures added { OnOk result (HasPart made.old made.new (part_view part)) }
    ensures count { OnOk result (made.new.count ≡ made.old.count + part.groups) }
    ensures groups { made.new.groups ≡ made.old.groups }
{
    let Part { ere, groups, gift } = part;
    push(&mut made.trees, ere)?;
    push_gift(&mut made.gifts, gift)?;
    made.count += groups;
    Ok(())
}

/// Names the group of a text that a piece behind so many groups defines, unless no piece behind it uses names.
fn name_group(groups: &mut Groups, piece: &Piece, count: u32, uses: bool) -> Result<(), NoMemory>
    requires { count < 2 ^ 31 }
    ensures { OnOk result (ServeBehind uses count groups.old groups.new (item_view piece.now)) }
{
    if !uses {
        return Ok(());
    }
    match piece {
        Piece::Define { name, .. } => groups.put(name.as_slice(), count + 1),
        Piece::Plain(_) => Ok(()),
        Piece::Regex(_) => Ok(()),
        Piece::Recall { .. } => Ok(()),
        Piece::Num { .. } => Ok(()),
    }
}

/// Adds the part of a piece, unless it has a fault.
#[tactic(auto, using(crate::proofs::GroupLemmas::few_groups))]
fn add_piece(
    alloc: Global,
    known: &Known<'_>,
    made: &mut Made,
    piece: &Piece,
    uses: bool,
) -> Result<Result<(), EvalFault>, NoMemory>
    requires { made.old.count + (greatest_of (item_view piece.now) + 2) < 2 ^ 31 }
    ensures added { IfOk result (AddsPiece uses known.now made.old made.new (item_view piece.now)) }
    ensures count { OnOk result (made.new.count ≤ made.old.count + most_groups (item_view piece.now)) }
{
    let count = made.count;
    let part = match part_of(alloc, known, piece, count, &made.groups)? {
        Ok(part) => part,
        Err(fault) => return Ok(Err(fault)),
    };
    name_group(&mut made.groups, piece, count, uses)?;
    add_part(made, part)?;
    Ok(Ok(()))
}

/// Adds the parts of all pieces, up to the first fault.
fn add_pieces(
    alloc: Global,
    known: &Known<'_>,
    begun: Made,
    pieces: &[Piece],
    uses: bool,
) -> Result<Result<Made, EvalFault>, NoMemory>
    requires nameless { uses ≡ false → uses_names (items_view pieces.now) ≡ false }
    requires room { begun.count + sum_by (λ one. greatest_of one + 2) (items_view pieces.now) < 2 ^ 31 }
    ensures { MayMakeAll result (whole (known_in known.now) begun (items_view pieces.now)) }
{
    let mut made = begun;
    for piece in pieces {
        if let Err(fault) = add_piece(alloc, known, &mut made, piece, uses)? {
            return Ok(Err(fault));
        }
    }
    Ok(Ok(made))
}

/// The instance of a pattern that a directive of this line has.
pub fn make_instance(
    alloc: Global,
    pattern: &Pattern,
    vars: &Vars,
    line: u32,
) -> Result<Instance, NoMemory>
    requires { IsSearchable (items_view pattern.now.pieces) }
    ensures { IfOk result (λ instance. instance_view instance ≡ instance_by vars.now line pattern.now) }
{
    let pieces = pattern.pieces.as_slice();
    let uses = uses_names(pieces);
    let known = Known {
        vars,
        line,
        fold: pattern.fold,
    };
    let names = missing_names(alloc, &known, pieces, uses)?;
    if !names.is_empty() {
        return Ok(Instance::Undefined(names));
    }
    let begun = Made {
        trees: before(alloc, pattern.frame)?,
        gifts: Items::new(alloc),
        count: 0,
        groups: Groups::new(alloc),
    };
    match add_pieces(alloc, &known, begun, pieces, uses)? {
        Ok(made) => finished(alloc, made, pattern.frame),
        Err(fault) => Ok(Instance::Faulty(fault)),
    }
}

/// The instance of parts, once all are made.
fn finished(alloc: Global, parts: Made, frame: Frame) -> Result<Instance, NoMemory>
    ensures { IfOk result (λ instance. instance_view instance ≡ finished parts frame) }
{
    let Made {
        mut trees,
        gifts,
        ..
    } = parts;
    add_behind(alloc, &mut trees, frame)?;
    Ok(Instance::Made {
        ere: Ere::Cat(EreList::from_vec(trees)),
        gifts,
    })
}
