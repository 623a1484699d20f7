//! Laws of the definitions. A law is the contract of a function that does nothing.
ghost use Rattle.num_exprs.specs.Productions.{ReadingIsGrammar};

/// What is read of an expression is what the productions of the grammar say, and each expression is read.
pub fn law_of_expressions()
    ensures grammar { ReadingIsGrammar }
{}
