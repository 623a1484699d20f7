//! Laws of the definitions. A law is the contract of a function that does nothing.
ghost use Rattle.mini_shell.specs.Grammar.{LinesAreRead};
ghost use Rattle.mini_shell.specs.Quoting.{WordsAreRead};
ghost use Rattle.mini_shell.specs.Reading.{ReadingIsOne};
ghost use Rattle.mini_shell.specs.Value.{LineIsRead};

/// A text is read in one way.
pub fn law_of_readings()
    ensures { ReadingIsOne }
{}

/// A text is read as a line where it is that line, and it is at most one.
pub fn law_of_lines()
    ensures { LinesAreRead }
{}

/// A word is read at the front of a text exactly where one is written there.
pub fn law_of_words()
    ensures { WordsAreRead }
{}

/// A text is read as the value, and as nothing else.
#[tactic(auto, using(crate::proofs::ValueLemmas::line_is_read))]
pub fn law_of_values()
    ensures { LineIsRead }
{}
