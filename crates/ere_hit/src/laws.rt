//! The law of the value. A law is the contract of a function that does nothing.
ghost use Rattle.ere_hit.specs.Value.{HitIsValue, ValueIsHit, ValueIsOne, ValueLies};

/// The value is a hit of the definition, each hit is that value, and it lies in its slice.
#[tactic(auto, using(crate::proofs::ValueLemmas::value_is_hit, crate::proofs::ValueLemmas::value_is_one, crate::proofs::ValueLemmas::hit_is_value, crate::proofs::ValueLemmas::value_lies))]
pub fn law_of_the_value()
    ensures is_hit { ValueIsHit }
    ensures is_one { ValueIsOne }
    ensures equal { HitIsValue }
    ensures lies { ValueLies }
{}
