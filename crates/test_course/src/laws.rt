//! Laws of the definitions. A law is the contract of a function that does nothing.
ghost use Rattle.test_course.specs.Laws.{HasFewBytes, HasFewEntries, IsOneList};

use tt_outside::Runner;

/// Over a steady crew, what is given along a course is at most one list.
#[tactic(auto, using(crate::proofs::LawLemmas::one_list))]
pub fn law_of_steadiness<R: Runner, S, E>(hand: &R)
    ensures { IsOneList S E (R.gave hand.now) }
{}

/// A test has at most as many entries as it keeps bytes.
#[tactic(auto, using(crate::proofs::LawLemmas::few_entries))]
pub fn law_of_few_entries<S, E>()
    ensures { HasFewEntries S E }
{}

/// A test keeps at most 24 MiB, where each file and each stream has at most `LIMIT` bytes.
#[tactic(auto, using(crate::proofs::LawLemmas::few_bytes))]
pub fn law_of_few_bytes<S, E>()
    ensures { HasFewBytes S E }
{}
