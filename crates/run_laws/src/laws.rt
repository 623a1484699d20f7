//! Laws of the definitions. A law is the contract of a function that does nothing.
ghost use Rattle.run_laws.specs.Calls.{IsOneAnswer, IsOneList, OfCalls};
ghost use Rattle.run_laws.specs.Workers.{IsOneReport, OfRuns, StopsInFront};

use tt_outside::{Crew, Sink, Tree};

/// Runs of the same tests by hands that give the same, and that each time, end in the same way, whatever the numbers of their workers;
/// and one that stops has trials of the same list.
pub fn law_of_workers<C: Crew, O: Sink, E: Sink>()
    ensures report { OfRuns C.Crew O.Sink E.Sink IsOneReport }
    ensures front { OfRuns C.Crew O.Sink E.Sink StopsInFront }
{}

/// A tree and words have one list of tests; and calls of `lit` that ask for the same tests to be run end in the same way, whatever the
/// numbers of their workers.
pub fn law_of_calls<T: Tree, C: Crew, O: Sink, E: Sink>()
    ensures tests { IsOneList }
    ensures answer { OfCalls T.Tree C.Crew O.Sink E.Sink IsOneAnswer }
{}
