//! A law of the definitions. A law is the contract of a function that does nothing.
ghost use Rattle.block_laws.specs.Productions.{BlockIsGrammar};

/// What is read of a numeric block is what the productions of the grammar say, and each block of the grammar is read.
pub fn law_of_blocks()
    ensures grammar { BlockIsGrammar }
{}
