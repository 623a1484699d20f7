//! Laws of the definitions. A law is the contract of a function that does nothing.
ghost use Rattle.lit_desk.specs.Laws.{PartsAreWritten, StopsInAPart};

/// Where tests were put on a desk, the report grew by their parts; where it refused one more, by what that leaves.
#[tactic(auto, using(crate::proofs::PutLemmas::parts_are_written, crate::proofs::PutLemmas::stops_in_a_part))]
pub fn law_of_putting()
    ensures parts { PartsAreWritten }
    ensures stops { StopsInAPart }
{}
