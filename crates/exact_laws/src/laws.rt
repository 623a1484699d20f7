//! Laws of the definitions. A law is the contract of a function that does nothing.
ghost use Rattle.exact_laws.specs.Exact.{MadeFilesAreExact};

/// The check file that an output makes is read and compiles, and accepts the texts with the canonical lines of that output alone.
pub fn law_of_exactness()
    ensures { MadeFilesAreExact }
{}
