//! Where expressions without references end, of which it is asked again and again.
ghost use Rattle.std.specs.Prelude.{◌≡◌, ◌≤◌, [], false, length, IfOk, OnOk};
ghost use Rattle.std.specs.List.{All};
ghost use Rattle.ere_auto.specs.Seen.{IsFor};
ghost use Rattle.ere_auto.specs.State.{state_of};
ghost use Rattle.ere_places.specs.Places.{Finds, IsInside};
ghost use Rattle.ere_places.specs.declared.window.Direction.TheVariants.{Ahead};
ghost use Rattle.ere_reach.specs.Asked.{AreBuilt, IsBuilt};
ghost use Rattle.ere_tree.specs.Shape.{has_refs};
ghost use Rattle.ere_tree.specs.View.{view};

use crate::same::are_one;
use ere_auto::{Auto, ends_by, ends_from};
use ere_places::Window;
use ere_tree::Ere;
use std::alloc::{AllocError, Global};

/// From how many places on an automaton is kept for an expression.
const FEW: usize = 8;

/// From how many places at once the text is gone through once.
const MANY: usize = 32;

/// For how many expressions it is kept what was asked of them, so that automata take some megabytes at most.
const MOST_KEPT: usize = 64;

/// An expression of which it was asked, from how many places, and its automaton once these were many.
#[derive(Drop)]
struct Asked<'e> {
    ere: &'e Ere,
    count: usize,
    automaton: Option<Auto>,
}

impl<'e> Asked<'e> {
    /// Takes out the automaton, or makes it.
    fn take(&mut self, alloc: Global) -> Result<Auto, AllocError>
        requires no_refs { has_refs (view self.old.ere.now) ≡ false }
        requires built { IsBuilt self.old }
        ensures built { IfOk result (λ automaton. IsFor (state_of automaton) (view self.old.ere.now)) }
        ensures expression { self.new.ere ≡ self.old.ere }
    {
        match self.automaton.take() {
            Some(automaton) => Ok(automaton),
            None => Auto::new(alloc, self.ere),
        }
    }

    /// The places that `ends_from` tells of the expression.
    fn ends(
        &mut self,
        alloc: Global,
        text: &[u8],
        window: Window,
        from: &[usize],
    ) -> Result<Vec<usize>, AllocError>
        requires no_refs { has_refs (view self.old.ere.now) ≡ false }
        requires built { IsBuilt self.old }
        requires ahead { window.direction ≡ Ahead }
        requires window { window.high ≤ length text.now }
        requires inside { All (IsInside window) from.now }
        ensures ends { IfOk result (Finds text.now (view self.old.ere.now) window from.now) }
        ensures expression { self.new.ere ≡ self.old.ere }
        ensures built { OnOk result (IsBuilt self.new) }
    {
        self.count = self.count.saturating_add(from.len());
        if self.count < FEW {
            return ends_from(alloc, self.ere, text, window, from);
        }
        let mut automaton = self.take(alloc)?;
        let found = ends_by(&mut automaton, alloc, text, window, from)?;
        self.automaton = Some(automaton);
        Ok(found)
    }
}

/// The expressions of which it was asked so far.
#[derive(Drop)]
pub(crate) struct AskedEnds<'e> {
    all: Vec<Asked<'e>>,
}

impl<'e> AskedEnds<'e> {
    pub(crate) fn new(alloc: Global) -> AskedEnds<'e>
        ensures { result.all.items ≡ [] }
    {
        AskedEnds {
            all: Vec::new(alloc),
        }
    }

    /// The places that `ends_from` tells.
    pub(crate) fn ends(
        &mut self,
        alloc: Global,
        ere: &'e Ere,
        text: &[u8],
        window: Window,
        from: &[usize],
    ) -> Result<Vec<usize>, AllocError>
        requires no_refs { has_refs (view ere.now) ≡ false }
        requires built { AreBuilt self.old }
        requires ahead { window.direction ≡ Ahead }
        requires window { window.high ≤ length text.now }
        requires inside { All (IsInside window) from.now }
        ensures ends { IfOk result (Finds text.now (view ere.now) window from.now) }
        ensures built { OnOk result (AreBuilt self.new) }
    {
        if from.len() > MANY {
            return ends_from(alloc, ere, text, window, from);
        }
        for index in 0..self.all.len() {
            if are_one(self.all[index].ere, ere) {
                return self.all[index].ends(alloc, text, window, from);
            }
        }
        if self.all.len() >= MOST_KEPT {
            return ends_from(alloc, ere, text, window, from);
        }
        let mut asked = Asked {
            ere,
            count: 0,
            automaton: None,
        };
        let found = asked.ends(alloc, text, window, from)?;
        self.all.push(asked)?;
        Ok(found)
    }
}
