//! Laws of the definitions. A law is the contract of a function that does nothing.
ghost use Rattle.lead_laws.specs.Canon.{CanonIsByLines, CanonIsByParts, CanonIsSettled};
ghost use Rattle.lead_laws.specs.Marks.{LeadsDecideNothing};

/// A line with a lead in front is decided behind it, as it would be without.
pub fn law_of_marks()
    ensures leads { LeadsDecideNothing }
{}

/// Before a text that begins with neither a blank nor a newline the canonical form of both is that of each; that of a text is that of
/// its lines; and in it no two blanks stand side by side.
pub fn law_of_canon()
    ensures parts { CanonIsByParts }
    ensures lines { CanonIsByLines }
    ensures settled { CanonIsSettled }
{}
