//! The law of the value. A law is the contract of a function that does nothing.
ghost use Rattle.bool_values.specs.Holding.{HoldingIsOne};

/// An expression without references holds exactly where the value says so.
#[tactic(auto, using(crate::proofs::HoldingLemmas::holding_is_one))]
pub fn law_of_values()
    ensures { HoldingIsOne }
{}
