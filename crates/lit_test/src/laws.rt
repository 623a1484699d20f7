//! Laws of the definitions, and of what threads may hand on. A law is the contract of a function that does nothing.
ghost use Rattle.lit_test.specs.Laws.{IsOneTrial};

use crate::trial::Trial;
use tt_outside::Runner;

/// Over a steady crew a test has one trial at most.
pub fn law_of_trials<R: Runner>(hand: &R)
    ensures { IsOneTrial (R.gave hand.now) }
{}

/// Takes only what threads may hand on to each other.
fn handed_on<T: Send>(_value: &T) {}

/// Law: threads may hand trials on to each other. The bound of what it calls keeps it.
pub fn law_of_handing_on(trial: &Trial) {
    handed_on(trial);
}
