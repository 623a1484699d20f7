//! Laws of the definitions. A law is the contract of a function that does nothing.
ghost use Rattle.filecheck_words.specs.Implicit.{PatternsAreLines};

/// Each pattern of an implicit directive is a line with more than blanks.
pub fn law_of_implicit_patterns()
    ensures lines { PatternsAreLines }
{}
