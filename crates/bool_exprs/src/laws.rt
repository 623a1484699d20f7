//! Laws of the definitions. A law is the contract of a function that does nothing.
ghost use Rattle.bool_exprs.specs.Productions.{ReadingIsGrammar};

/// What is read of a list is what the productions of the grammar say, and each list is read.
pub fn law_of_lists()
    ensures grammar { ReadingIsGrammar }
{}
