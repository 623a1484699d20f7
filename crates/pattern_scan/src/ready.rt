//! Patterns that are made ready for the tries of a directive.
ghost use Rattle.std.specs.Prelude.{◌≡◌, ◌≤◌, ◌+◌, ◌-◌, [], Bool, IfOk, IfSome, OnOk, length};
ghost use Rattle.ere_hit.specs.Value.{hit_in};
ghost use Rattle.ere_tree.specs.View.{view};
ghost use Rattle.pattern_hits.specs.Caps.{IsSoundIn};
ghost use Rattle.pattern_instance.specs.Views.{instance_view};
ghost use Rattle.pattern_parse.specs.PieceView.{items_view};
ghost use Rattle.pattern_parse.specs.Search.{IsSearchable};
ghost use Rattle.pattern_scan.specs.Ready.{IsBuilt, IsReady, IsShownBy, sought_by};
ghost use Rattle.pattern_scan.specs.Seek.{IsWithin, answer_of, is_expressed, refusal_of};
ghost use Rattle.pattern_scan.specs.declared.sought.Sought.TheVariants.{Found};
ghost use Rattle.tt_base.specs.Place.{span_of};

use crate::means::Means;
use crate::sought::Sought;
use ere_auto::Steps;
use ere_match::hit_span;
use ere_tree::{Ere, Hit};
use num_base::EvalFault;
use pattern_hits::all_bound;
use pattern_instance::{Gift, Instance, make_instance};
use pattern_parse::{Pattern, Piece};
use pattern_vars::Vars;
use std::alloc::Global;
use std::sync::ledger::Ledger;
use tt_base::{Bytes, Items, NoMemory, Span};

/// A pattern where variables have their values, with all that doesn't depend on the place where it is sought.
#[derive(Drop)]
pub struct Ready {
    instance: Instance,
    means: Means,
    fold: bool,
    is_expressed: bool,
}

/// Whether one of the pieces is a regular expression or defines a text by one.
pub(crate) fn is_expressed(pieces: &[Piece]) -> bool
    ensures { result ≡ is_expressed (items_view pieces.now) }
{
    for piece in pieces {
        match piece {
            Piece::Regex(_) => return true,
            Piece::Define { .. } => return true,
            Piece::Plain(_) => {}
            Piece::Recall { .. } => {}
            Piece::Num { .. } => {}
        }
    }
    false
}

/// Copies of names.
fn copies(alloc: Global, names: &[Bytes]) -> Result<Items<Bytes>, NoMemory>
    ensures { IfOk result (λ made. made ≡ names.now) }
{
    let mut made = Items::new(alloc);
    for name in names {
        made.push(Bytes::from_slice(alloc, name.as_slice())?)?;
    }
    Ok(made)
}

/// The answer of a fault.
fn refusal_of(alloc: Global, fault: EvalFault) -> Sought
    ensures { result ≡ refusal_of fault }
{
    match fault {
        EvalFault::Undefined => Sought::UndefinedNames(Items::new(alloc)),
        EvalFault::Range => Sought::Range,
        EvalFault::ZeroDivisor => Sought::ZeroDivisor,
    }
}

/// The answer of a match that gives nothing.
pub(crate) fn found_part(alloc: Global, from: usize, to: usize) -> Sought
    ensures { result ≡ Found (span_of from (to - from)) [] }
{
    Sought::Found {
        span: Span::of(from, to.saturating_sub(from)),
        fresh: Items::new(alloc),
    }
}

/// The answer of an expression of whose groups nothing is asked.
fn seek_span<L: Ledger>(
    alloc: Global,
    ere: &Ere,
    text: &[u8],
    from: usize,
    steps: &mut Steps<L>,
) -> Result<Sought, NoMemory>
    requires inside { from ≤ length text.now }
    ensures value { (fold : Bool) →
        IfOk result (λ answer. answer ≡ answer_of fold text.now [] (hit_in text.now (view ere.now) from)) }
    ensures most { steps.new ≤ steps.old + (length text.now - from) + 1 }
    ensures counted { steps.old ≤ steps.new }
{
    match hit_span(alloc, ere, text, from, steps)? {
        Some(span) => Ok(found_part(alloc, span.from, span.to)),
        None => Ok(Sought::Absent),
    }
}

/// The answer of a hit, or of none.
fn answer_of(
    alloc: Global,
    gifts: &[Gift],
    text: &[u8],
    fold: bool,
    hit: Option<Hit>,
) -> Result<Sought, NoMemory>
    requires { IfSome hit (IsSoundIn text.now) }
    ensures { IfOk result (λ sought. sought ≡ answer_of fold text.now gifts.now hit) }
{
    let Some(hit) = hit else {
        return Ok(Sought::Absent);
    };
    match all_bound(alloc, gifts, hit.groups.as_slice(), text, fold)? {
        Ok(fresh) => Ok(Sought::Found {
            span: Span::of(hit.from, hit.to.saturating_sub(hit.from)),
            fresh,
        }),
        Err(span) => Ok(Sought::Unreadable(span)),
    }
}

/// Makes a pattern of a directive of this line ready. No variable changes.
pub fn prepare(alloc: Global, pattern: &Pattern, vars: &Vars, line: u32) -> Result<Ready, NoMemory>
    requires searchable { IsSearchable (items_view pattern.now.pieces) }
    ensures ready { IfOk result (λ ready. IsReady ready pattern.now vars.now line) }
    ensures built { IfOk result IsBuilt }
{
    let instance = make_instance(alloc, pattern, vars, line)?;
    let is_expressed = is_expressed(pattern.pieces.as_slice());
    let means = match &instance {
        Instance::Made { ere, .. } => Means::new(alloc, ere, is_expressed)?,
        Instance::Undefined(_) => Means::Derivations,
        Instance::Faulty(_) => Means::Derivations,
    };
    Ok(Ready {
        instance,
        means,
        fold: pattern.fold,
        is_expressed,
    })
}

impl Ready {
    /// Seeks the pattern in the slice from `from` to the text's end.
    pub fn seek<L: Ledger>(
        &mut self,
        alloc: Global,
        text: &[u8],
        from: usize,
        steps: &mut Steps<L>,
    ) -> Result<Sought, NoMemory>
        requires inside { from ≤ length text.now }
        requires built { IsBuilt self.old }
        ensures value { IfOk result (λ answer. answer ≡ sought_by self.old text.now from) }
        ensures within { IfOk result (IsWithin from (length text.now)) }
        ensures least { OnOk result (IsShownBy self.old text.now from (steps.new - steps.old)) }
        ensures most { steps.new ≤ steps.old + (length text.now - from) + 1 }
        ensures counted { steps.old ≤ steps.new }
        ensures built { IsBuilt self.new }
        ensures same { instance_view self.new.instance ≡ instance_view self.old.instance }
        ensures fold { self.new.fold ≡ self.old.fold }
        ensures expressed { self.new.is_expressed ≡ self.old.is_expressed }
    {
        match &self.instance {
            Instance::Undefined(names) => Ok(Sought::UndefinedNames(copies(
                alloc,
                names.as_slice(),
            )?)),
            Instance::Faulty(fault) => Ok(refusal_of(alloc, *fault)),
            Instance::Made { ere, gifts } => {
                if self.means.is_listed() && gifts.is_empty() {
                    return seek_span(alloc, ere, text, from, steps);
                }
                let hit = self.means.find(alloc, ere, text, from, steps)?;
                answer_of(alloc, gifts.as_slice(), text, self.fold, hit)
            }
        }
    }
}
