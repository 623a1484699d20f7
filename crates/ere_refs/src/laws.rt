//! Laws of what may be dropped. A law is the contract of a function that does nothing.
ghost use Rattle.ere_refs.specs.Lists.{FirstIsBest};
ghost use Rattle.ere_refs.specs.Live.{LiveIsEnough};

/// What isn't read from an expression on may differ before it.
pub fn law_of_live()
    ensures live_is_enough { LiveIsEnough }
{}

/// The first of a list is the preferred one.
pub fn law_of_lists()
    ensures first_is_best { FirstIsBest }
{}
