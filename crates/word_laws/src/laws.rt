//! A law of the definitions. A law is the contract of a function that does nothing.
ghost use Rattle.word_laws.specs.Words.{WordsAreSteps};

/// Words without a fault are cut into steps of one word or two, and what they give is what the steps give, in order.
pub fn law_of_words()
    ensures { WordsAreSteps }
{}
