//! How the expression of a pattern is looked for.
ghost use Rattle.std.specs.Prelude.{◌≡◌, ◌≤◌, ◌+◌, ◌-◌, IfOk, length, true};
ghost use Rattle.ere_tree.specs.Hit.{FindsHit};
ghost use Rattle.ere_tree.specs.View.{view};
ghost use Rattle.pattern_scan.specs.Means.{IsFor, Shows, ShowsHit};
ghost use Rattle.pattern_scan.specs.declared.means.Means.TheVariants.{Derivations};

use ere_auto::Steps;
use ere_match::{Search, find};
use ere_tree::{Ere, Hit};
use pattern_hits::{find_text, text_of};
use std::alloc::Global;
use std::sync::ledger::Ledger;
use tt_base::{Bytes, NoMemory};

/// How an expression is looked for in slices of texts.
#[derive(Drop)]
pub enum Means {
    /// As these bytes.
    Text(Bytes),
    /// By an automaton that is built once.
    Automaton(Search),
    /// Among all its derivations: it has references.
    Derivations,
}

impl Means {
    /// How an expression is best looked for. Where it has to be shown byte by byte it isn't looked for as text.
    pub fn new(alloc: Global, ere: &Ere, is_shown: bool) -> Result<Means, NoMemory>
        ensures is_for { IfOk result (λ means. IsFor means (view ere.now)) }
        ensures shows { is_shown ≡ true → IfOk result Shows }
    {
        if ere.has_refs() {
            return Ok(Means::Derivations);
        }
        if !is_shown {
            if let Some(text) = text_of(alloc, ere)? {
                return Ok(Means::Text(text));
            }
        }
        Ok(Means::Automaton(Search::new(alloc, ere)?))
    }

    /// Whether its expression is looked for among all its derivations.
    pub fn is_listed(&self) -> bool
        ensures { result ≡ true → self.now ≡ Derivations }
    {
        match self {
            Means::Text(_) | Means::Automaton(_) => false,
            Means::Derivations => true,
        }
    }

    /// The hit of its expression in the slice from `from` to the text's end.
    pub fn find<L: Ledger>(
        &mut self,
        alloc: Global,
        ere: &Ere,
        text: &[u8],
        from: usize,
        steps: &mut Steps<L>,
    ) -> Result<Option<Hit>, NoMemory>
        requires inside { from ≤ length text.now }
        requires is_for { IsFor self.old (view ere.now) }
        ensures hit { IfOk result (FindsHit text.now (view ere.now) from) }
        ensures least { ShowsHit self.old (view ere.now) text.now from (steps.new - steps.old) result }
        ensures most { steps.new ≤ steps.old + (length text.now - from) + 1 }
        ensures counted { steps.old ≤ steps.new }
        ensures is_for { IsFor self.new (view ere.now) }
        ensures shows { Shows self.old → Shows self.new }
    {
        match self {
            Means::Text(needle) => Ok(find_text(alloc, needle.as_slice(), text, from)),
            Means::Automaton(search) => search.find(alloc, ere, text, from, steps),
            Means::Derivations => find(alloc, ere, text, from, steps),
        }
    }
}
