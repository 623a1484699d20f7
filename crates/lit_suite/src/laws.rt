//! Laws of the definitions. A law is the contract of a function that does nothing.
ghost use Rattle.lit_suite.specs.Whole.{ReadingIsWhole};

/// A suite that is read has suffixes, none of them is empty, and neither is a name of its replacements.
pub fn law_of_suites()
    ensures whole { ReadingIsWhole }
{}
