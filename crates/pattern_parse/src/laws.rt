//! Laws of the definitions. A law is the contract of a function that does nothing.
ghost use Rattle.pattern_parse.specs.Cut.{CutIsOne};
ghost use Rattle.pattern_parse.specs.Pieces.{PiecesAreOne};

/// A body is cut in at most one way, and has at most one list of pieces or one refusal.
pub fn law_of_bodies()
    ensures cut { CutIsOne }
    ensures pieces { PiecesAreOne }
{}
