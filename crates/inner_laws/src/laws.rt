//! Laws of the definitions. A law is the contract of a function that does nothing.
ghost use Rattle.inner_laws.specs.Replies.{FaultsAreTold, NotInverts, RepliesFit, ReplyIsOne};
ghost use Rattle.lit_inproc.specs.Inside.{StaysSteady};

use tt_outside::Crew;

/// The reply to a request that is answered inside: it fits, it is a fault exactly where a reply of the hand is one, equal replies of the
/// hand leave one, and for a `not` it is the inverse of the reply to the words below.
pub fn law_of_inner_replies()
    ensures fit { RepliesFit }
    ensures fault { FaultsAreTold }
    ensures one { ReplyIsOne }
    ensures inverse { NotInverts }
{}

/// Where a crew gives one reply at most for a test, the entries before and a request, so does the one round it.
#[tactic(auto, using(crate::proofs::SteadyLemmas::steady_inside))]
pub fn law_of_steadiness<C: Crew>(crew: &C)
    ensures { StaysSteady (C.gave crew.now) }
{}
