//! A law of the definitions. A law is the contract of a function that does nothing.
ghost use Rattle.compile_laws.specs.Laws.{ChecksAreOne, NotBoth, RefusalIsOne};

/// The bodies of a check file come to one thing: directives that are the same to scanning, or one refusal.
pub fn law_of_compiling()
    ensures checks { ChecksAreOne }
    ensures not_both { NotBoth }
    ensures refusal { RefusalIsOne }
{}
