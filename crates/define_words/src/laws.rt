//! Laws of the definitions. A law is the contract of a function that does nothing.
ghost use Rattle.define_words.specs.Laws.{FormatIsOfBlocks, RefusedIsFirst};

/// The format of a number is found as that of a block is, and the first value that defines nothing is refused.
pub fn law_of_defines()
    ensures format { FormatIsOfBlocks }
    ensures first { RefusedIsFirst }
{}
