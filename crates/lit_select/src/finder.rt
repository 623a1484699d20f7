//! How an expression is looked for in names.
ghost use Rattle.std.specs.Prelude.{◌≡◌, IfOk};
ghost use Rattle.ere_tree.specs.Hit.{FindsHit};
ghost use Rattle.ere_tree.specs.View.{view};
ghost use Rattle.lit_select.specs.Finder.{IsFor};
ghost use Rattle.lit_select.specs.Selection.{chooses, is_found};

use ere_auto::Steps;
use ere_match::{Search, find};
use ere_tree::{Ere, Hit};
use std::alloc::Global;
use std::sync::ledger::Ledger;
use tt_base::NoMemory;
use tt_outside::Test;

/// How an expression is looked for in many names.
#[derive(Drop)]
pub(crate) enum Finder {
    /// By an automaton that is built once.
    Automaton(Search),
    /// Among all its derivations: it has references.
    Derivations,
}

impl Finder {
    /// How an expression is looked for.
    pub(crate) fn new(alloc: Global, ere: &Ere) -> Result<Finder, NoMemory>
        ensures { IfOk result (λ finder. IsFor finder (view ere.now)) }
    {
        if ere.has_refs() {
            return Ok(Finder::Derivations);
        }
        Ok(Finder::Automaton(Search::new(alloc, ere)?))
    }

    /// The hit of its expression in a name.
    fn find<L: Ledger>(
        &mut self,
        alloc: Global,
        ere: &Ere,
        name: &[u8],
        steps: &mut Steps<L>,
    ) -> Result<Option<Hit>, NoMemory>
        requires { IsFor self.old (view ere.now) }
        ensures hit { IfOk result (FindsHit name.now (view ere.now) 0) }
        ensures is_for { IsFor self.new (view ere.now) }
    {
        match self {
            Finder::Automaton(search) => search.find(alloc, ere, name, 0, steps),
            Finder::Derivations => find(alloc, ere, name, 0, steps),
        }
    }

    /// Whether its expression is found in a name.
    #[tactic(auto, using(crate::proofs::FoundLemmas::found_is))]
    fn is_found<L: Ledger>(
        &mut self,
        alloc: Global,
        ere: &Ere,
        name: &[u8],
        steps: &mut Steps<L>,
    ) -> Result<bool, NoMemory>
        requires { IsFor self.old (view ere.now) }
        ensures found { IfOk result (λ found. found ≡ is_found (view ere.now) name.now) }
        ensures is_for { IsFor self.new (view ere.now) }
    {
        match self.find(alloc, ere, name, steps)? {
            Some(_) => Ok(true),
            None => Ok(false),
        }
    }

    /// Whether its expression chooses a test.
    pub(crate) fn chooses<L: Ledger>(
        &mut self,
        alloc: Global,
        ere: &Ere,
        is_wanted: bool,
        test: &Test,
        steps: &mut Steps<L>,
    ) -> Result<bool, NoMemory>
        requires { IsFor self.old (view ere.now) }
        ensures chosen { IfOk result (λ chosen. chosen ≡ chooses is_wanted (view ere.now) test.now) }
        ensures is_for { IsFor self.new (view ere.now) }
    {
        let found = self.is_found(alloc, ere, test.name.as_slice(), steps)?;
        Ok(if is_wanted { found } else { !found })
    }
}
