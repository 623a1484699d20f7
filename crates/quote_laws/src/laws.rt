//! Laws of the definitions. A law is the contract of a function that does nothing.
ghost use Rattle.quote_laws.specs.Instance.{LinesAreMade};
ghost use Rattle.quote_laws.specs.Quote.{BodiesAreCut, BodiesAreRead, NotsAreRead, QuotesAreParts};

/// A quoted line between `{{^}}` and `{{$}}` is read as the expression of the line, and the bodies of the two NOTs as theirs.
pub fn law_of_bodies()
    ensures quoted { QuotesAreParts }
    ensures cut { BodiesAreCut }
    ensures read { BodiesAreRead }
    ensures nots { NotsAreRead }
{}

/// The pieces of made directives stand for the expressions of lines and of the two NOTs.
pub fn law_of_instances()
    ensures made { LinesAreMade }
{}
