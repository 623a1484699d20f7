//! Laws of the definitions. A law is the contract of a function that does nothing.
ghost use Rattle.ere_tree.specs.Hit.{HitIsOne};
ghost use Rattle.ere_tree.specs.Preference.{OneIsPreferred, PreferenceLeadsOn, OneWayOneEnd};

/// Preference is an order on the derivations of an expression from one place, and a way tells its derivation.
#[tactic(auto, using(crate::proofs::PreferenceLemmas::laws))]
pub fn law_of_preference()
    ensures one_is_preferred { OneIsPreferred }
    ensures leads_on { PreferenceLeadsOn }
    ensures one_way_one_end { OneWayOneEnd }
{}

/// An expression has at most one hit in a slice.
pub fn law_of_the_hit()
    ensures hit_is_one { HitIsOne }
{}
