//! Laws of the definitions. A law is the contract of a function that does nothing.
ghost use Rattle.file_laws.specs.Asks.{MadeFilesAreRead};

/// A made check file is read as the directives that ask for the lines of its output, behind whatever is kept of an old one.
pub fn law_of_reading()
    ensures { MadeFilesAreRead }
{}
