//! Laws of the definitions. A law is the contract of a function that does nothing.
ghost use Rattle.made_laws.specs.Made.{EmptyLinesAreLeast, MadeChecksAreExact, MadeChecksTellLines};

/// Directives that are made from lines find no fault exactly in the texts of these lines.
pub fn law_of_made_checks()
    ensures exact { MadeChecksAreExact }
    ensures lines { MadeChecksTellLines }
{}

/// An EMPTY's search finds the least newline behind which a line is empty.
pub fn law_of_empty_lines()
    ensures { EmptyLinesAreLeast }
{}
