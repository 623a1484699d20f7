//! The span of an expression in a slice, by its automaton.
ghost use Rattle.std.specs.Prelude.{◌≡◌, ℕ, ◌<◌, ◌≤◌, ◌+◌, ◌-◌, [], List, length, drop, min, take};
ghost use Rattle.ere_tree.specs.Tree.{Tree};
ghost use Rattle.ere_auto.specs.Seen.{HasSeen, IsFor};
ghost use Rattle.ere_auto.specs.State.{state_of};
ghost use Rattle.ere_match.specs.Shown.{IsShown, SpanIsFound};

use ere_auto::{Auto, Steps};
use ere_tree::Cap;
use std::sync::ledger::Ledger;

/// Shows the bytes of a slice that stand before the place at which a start counts. How many there are.
pub(crate) fn wait_through<L: Ledger>(
    automaton: &mut Auto,
    slice: &[u8],
    steps: &mut Steps<L>,
) -> usize
    requires { automaton.old.at ≡ 0 }
    ensures count { result ≡ min automaton.old.begin (length slice.now) }
    ensures counted { steps.new ≡ steps.old + result }
    ensures seen { IsShown (state_of automaton.old) (state_of automaton.new) (take result slice.now) }
    ensures begin { automaton.new.begin ≡ automaton.old.begin }
    ensures shown { automaton.new.at ≡ result }
{
    for (index, byte) in slice.iter().enumerate() {
        if !automaton.waits() {
            return index;
        }
        let _waited = automaton.advance(Some(*byte), steps);
    }
    slice.len()
}

/// Shows a slice to an automaton that was shown nothing yet, as far as it wants.
pub fn find_span<L: Ledger>(automaton: &mut Auto, slice: &[u8], steps: &mut Steps<L>) -> Option<Cap>
    requires { automaton.old.at ≡ 0 }
    ensures found { SpanIsFound (state_of automaton.old) slice.now result (steps.new - steps.old) }
    ensures expression { (t : Tree) → HasSeen (state_of automaton.old) t [] → IsFor (state_of automaton.new) t }
    ensures counted { steps.old ≤ steps.new }
{
    let passed = wait_through(automaton, slice, steps);
    for index in passed..slice.len() {
        if !automaton.advance(Some(slice[index]), steps) {
            return automaton.span();
        }
    }
    let _ended = automaton.advance(None, steps);
    automaton.span()
}
