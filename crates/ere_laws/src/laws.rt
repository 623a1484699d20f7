//! Laws of the definitions. A law is the contract of a function that does nothing.
ghost use Rattle.ere_laws.specs.Laws.{FaultsComeFirst, FaultsLieWithin, HitsLieWithin, TokensAreSpelled};

/// The tokens that are read are exactly those that the productions spell.
pub fn law_of_the_tokens()
    ensures spelled { TokensAreSpelled }
{}

/// The first fault of a text lies in it, and a hit in its slice.
pub fn law_of_the_places()
    ensures faults { FaultsLieWithin }
    ensures hits { HitsLieWithin }
{}

/// What stands before the first fault of a text can be completed.
pub fn law_of_the_faults()
    ensures first { FaultsComeFirst }
{}
