//! Laws of the definitions. A law is the contract of a function that does nothing.
ghost use Rattle.lit_find.specs.Laws.{IsOneTest};

/// A file has one test at most, whatever words name it.
pub fn law_of_tests()
    ensures { IsOneTest }
{}
