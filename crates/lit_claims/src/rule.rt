//! The rule of the word, and what each step does to a seat.
ghost use Rattle.std.specs.Prelude.{◌≡◌, ◌+◌, ◌-◌, [], ◌++◌};
ghost use Rattle.lit_claims.specs.Claimed.{AddsDraw, Claimed, SHARES, view_of};

use crate::view::View;
use atomic_table::{Join, Play, Split, TableRule};

/// All seats together have the numbers below the word, each once.
pub struct ClaimRule;

impl TableRule<(), View, ()> for ClaimRule {
    ghost holds = { λ _ s. Claimed s.words s.views };

    ghost first = { λ _. view_of SHARES [] };
}

/// The step draws the number that it finds.
pub struct Draws;

impl Play<(), View> for Draws {
    ghost then = { λ _ me found after. AddsDraw me.0 found after.0 × (after.1 ≡ me.1) };
}

/// One share goes to a new seat.
pub struct OneShare;

impl Split<View> for OneShare {
    ghost left = { λ v. view_of (v.share - 1) v.drawn };

    ghost right = { λ _. view_of 1 [] };
}

/// The kept seat takes the share and the numbers of the other.
pub struct TakesOver;

impl Join<View> for TakesOver {
    ghost both = { λ v w. view_of (v.share + w.share) (v.drawn ++ w.drawn) };

    ghost spent = { view_of 0 [] };
}
