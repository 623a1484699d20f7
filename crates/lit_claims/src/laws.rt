//! A law of the definitions: the contract of a function that does nothing.
ghost use Rattle.lit_claims.specs.Laws.{IsEachOnce};

/// The numbers of which each bound has so many below it are those below the last, each once.
pub fn law_of_numbers()
    ensures { IsEachOnce }
{}
