//! A search that is built once, and kept for many slices.
ghost use Rattle.std.specs.Prelude.{◌≡◌, ◌+◌, ◌-◌, ◌≤◌, false, drop, length, IfOk};
ghost use Rattle.ere_tree.specs.Hit.{FindsHit};
ghost use Rattle.ere_tree.specs.Shape.{has_refs};
ghost use Rattle.ere_tree.specs.View.{view};
ghost use Rattle.ere_auto.specs.Seen.{IsFor};
ghost use Rattle.ere_auto.specs.State.{state_of};
ghost use Rattle.ere_match.specs.Shown.{Finds, ShownToFind};
ghost use Rattle.ere_match.specs.Spans.{FindsSpan};

use crate::filter::{Asked, find_filtered};
use crate::literal::earliest;
use crate::span::{find_span, wait_through};
use ere_auto::{Auto, Steps};
use ere_captures::captures;
use ere_one::{Walked, walk};
use ere_tree::{Cap, Ere, Hit};
use std::alloc::Global;
use std::sync::ledger::Ledger;
use tt_base::NoMemory;

/// The automaton of an expression without references, and what it has learned of the bytes so far.
#[derive(Drop)]
pub struct Search {
    automaton: Auto,
}

impl Search {
    /// A search for an expression. What it needs to search is taken here.
    pub fn new(alloc: Global, ere: &Ere) -> Result<Search, NoMemory>
        requires { has_refs (view ere.now) ≡ false }
        ensures { IfOk result (λ made. IsFor (state_of made.automaton) (view ere.now)) }
    {
        match Auto::build(alloc, ere) {
            Ok(automaton) => Ok(Search { automaton }),
            Err(NoMemory) => Err(NoMemory),
        }
    }

    /// The span of the expression in the slice from `from` to the text's end, with offsets of the slice. The expression
    /// is the one for which the search was built.
    pub fn span<L: Ledger>(
        &mut self,
        ere: &Ere,
        text: &[u8],
        from: usize,
        steps: &mut Steps<L>,
    ) -> Option<Cap>
        requires built { IsFor (state_of self.old.automaton) (view ere.now) }
        requires inside { from ≤ length text.now }
        ensures found { Finds (drop from text.now) (view ere.now) 0 result (steps.new - steps.old) }
        ensures counted { steps.old ≤ steps.new }
        ensures built { IsFor (state_of self.new.automaton) (view ere.now) }
    {
        let slice = text.split_at(from).1;
        let begin = earliest(ere, slice);
        if begin <= slice.len() {
            if let Walked::Ends(to) = walk(ere, slice, begin) {
                self.automaton.begin_at(to);
                let _shown = wait_through(&mut self.automaton, slice.split_at(to).0, steps);
                return Some(Cap { from: begin, to });
            }
        }
        self.automaton.begin_at(begin);
        find_span(&mut self.automaton, slice, steps)
    }

    /// The hit of the expression in the slice from `from` to the text's end, with offsets of the text. The expression is
    /// the one for which the search was built.
    pub fn find<L: Ledger>(
        &mut self,
        alloc: Global,
        ere: &Ere,
        text: &[u8],
        from: usize,
        steps: &mut Steps<L>,
    ) -> Result<Option<Hit>, NoMemory>
        requires no_refs { has_refs (view ere.now) ≡ false }
        requires built { IsFor (state_of self.old.automaton) (view ere.now) }
        requires inside { from ≤ length text.now }
        ensures hit { IfOk result (FindsHit text.now (view ere.now) from) }
        ensures least { IfOk result (ShownToFind text.now from (steps.new - steps.old)) }
        ensures most { steps.new ≤ steps.old + (length text.now - from) + 1 }
        ensures counted { steps.old ≤ steps.new }
        ensures built { IsFor (state_of self.new.automaton) (view ere.now) }
    {
        let Some(span) = self.span(ere, text, from, steps) else {
            return Ok(None);
        };
        let (_, slice) = text.split_at(from);
        match captures(alloc, ere, slice, span.from, span.to, from) {
            Ok(groups) => Ok(Some(Hit {
                from: from + span.from,
                to: from + span.to,
                groups,
            })),
            Err(_) => Err(NoMemory),
        }
    }
}

/// The hit of the expression in the slice from `from` to the text's end, with offsets of the text. One with references
/// is tried where a filter lets it begin. Whoever looks for one expression in many slices keeps a `Search`.
pub fn find<L: Ledger>(
    alloc: Global,
    ere: &Ere,
    text: &[u8],
    from: usize,
    steps: &mut Steps<L>,
) -> Result<Option<Hit>, NoMemory>
    requires inside { from ≤ length text.now }
    ensures hit { IfOk result (FindsHit text.now (view ere.now) from) }
    ensures least { has_refs (view ere.now) ≡ false →
        IfOk result (ShownToFind text.now from (steps.new - steps.old)) }
    ensures most { steps.new ≤ steps.old + (length text.now - from) + 1 }
    ensures counted { steps.old ≤ steps.new }
{
    if ere.has_refs() {
        return find_filtered(alloc, ere, text, from, Asked::Groups, steps);
    }
    let mut search = Search::new(alloc, ere)?;
    search.find(alloc, ere, text, from, steps)
}

/// Where the hit of the expression lies in the slice from `from` to the text's end, with offsets of the text. What its
/// groups hold isn't asked for, so with references this takes far less than `find`.
pub fn hit_span<L: Ledger>(
    alloc: Global,
    ere: &Ere,
    text: &[u8],
    from: usize,
    steps: &mut Steps<L>,
) -> Result<Option<Cap>, NoMemory>
    requires inside { from ≤ length text.now }
    ensures span { IfOk result (FindsSpan text.now (view ere.now) from) }
    ensures most { steps.new ≤ steps.old + (length text.now - from) + 1 }
    ensures counted { steps.old ≤ steps.new }
{
    if ere.has_refs() {
        return match find_filtered(alloc, ere, text, from, Asked::Span, steps)? {
            None => Ok(None),
            Some(hit) => Ok(Some(Cap {
                from: hit.from,
                to: hit.to,
            })),
        };
    }
    let mut search = Search::new(alloc, ere)?;
    match search.span(ere, text, from, steps) {
        None => Ok(None),
        Some(span) => Ok(Some(Cap {
            from: from + span.from,
            to: from + span.to,
        })),
    }
}
