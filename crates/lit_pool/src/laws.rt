//! Laws of the definitions. A law is the contract of a function that does nothing.
ghost use Rattle.lit_pool.specs.Laws.{IsOneRun};

use tt_outside::Runner;

/// Over a steady crew tests have one list of trials at most, whoever ran them.
pub fn law_of_runs<R: Runner>(hand: &R)
    ensures { IsOneRun (R.gave hand.now) }
{}
